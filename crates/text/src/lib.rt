// Text stored into lent bytes: characters and decimal digits.
// A function that stores a text takes its first byte's place and gives the place behind its last.
#![tactic(auto)]

mod decimal;
mod place;

pub use decimal::put_decimal;
pub use place::{after, put_mark};
