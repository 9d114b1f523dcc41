//! Integration tests: the seats between threads, and a venue that runs with its counterparties. One crate of its own,
//! since a crate with tests is proved twice, and each check reads the libraries below again.
#![tactic(auto)]

#[cfg(test)]
mod messages;
#[cfg(test)]
mod seats;
#[cfg(test)]
mod served;
