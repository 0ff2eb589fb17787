// Odds: what a wager that wins is paid, as so many chips to so many wagered.
#![tactic(auto)]

ghost use Rattle.std.specs.Prelude.{◌≤◌};

mod comparing;
mod making;
mod paying;

// As 500 to 1 or 3 to 2. The type keeps both figures in their ranges, so that no payment can divide by zero.
#[derive(Clone, Copy, Debug, PartialEq, Eq)]
pub struct Odds {
    numerator: u16,
    denominator: u8,
    ghost numerator_from_1: { 1 ≤ numerator },
    ghost numerator_to_1000: { numerator ≤ 1000 },
    ghost denominator_from_1: { 1 ≤ denominator },
    ghost denominator_to_100: { denominator ≤ 100 },
}
