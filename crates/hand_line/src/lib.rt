// What the program `hand` answers to a line of cards.
#![tactic(auto)]

pub mod answer;
pub mod line;
pub mod seven;
pub mod worked;
