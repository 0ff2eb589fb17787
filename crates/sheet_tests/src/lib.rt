// A paytable of a third make, and the tests of odds and paytables.
#![tactic(auto)]

pub mod rate_sheet;
#[cfg(test)]
mod tests;
