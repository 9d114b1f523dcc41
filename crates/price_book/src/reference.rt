//! Reference implementation: a plain book that keeps the day's facts as a list. Differential tests compare the book
//! with it.

mod body;
mod entering;
mod fills;
mod picture;
mod replacing;

pub use body::ReferenceBook;
