// The ranking of poker hands: the value of five cards, and the order of values.
#![tactic(auto)]

pub mod class;
pub mod five;
mod grouping;
mod ranks;
mod straight;
pub mod value;
