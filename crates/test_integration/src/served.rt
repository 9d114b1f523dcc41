//! A venue that runs with its counterparties: over memory, and over TCP.

mod connect;
mod cues;
mod faulty_lines;
mod five_clients;
mod five_ports;
mod fixture;
mod lines_of_a_day;
mod over_tcp;
mod pace;
mod restarted;
mod scripted;
mod scripts;
mod side_by_side;
mod signal;
mod watched;
