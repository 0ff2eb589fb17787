// Cards: the 52 of one deck, by number and by text.
#![tactic(auto)]

pub mod card;
pub mod fault;
pub mod rank;
pub mod reading;
pub mod several;
pub mod suit;
