// The best hand of seven cards.
#![tactic(auto)]

pub mod best;
pub mod choices;
