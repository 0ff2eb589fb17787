#![tactic(auto)]

pub mod paytable;
pub mod printed;
pub mod stepped;
