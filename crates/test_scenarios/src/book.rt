//! What both books answer, how many identifiers a search looks at, and how fast the book and the rooms are.

mod facility;
mod filling;
mod finding;
pub mod line;
mod market;
pub mod measuring;
mod messages;
mod room_timing;
mod running;
mod stream;
mod timing;
