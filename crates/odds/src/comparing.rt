// Odds compared as fractions, exactly.
ghost use Rattle.std.specs.Prelude.{◌≡◌, ℕ, ◌<◌, ◌≤◌, true, false};
ghost use Rattle.odds.specs.Fractions.{lower};
ghost use Rattle.odds.specs.Payment.{pays};
ghost use Rattle.odds.specs.LowerLaws.{lower_one_way, lower_chain};

use crate::Odds;
use search::Ranked;

// Crosswise, so that nothing is rounded. Odds of equal rank may differ in their figures, as 3 to 2 and 6 to 4, and a derived order would compare
// one figure after the other.
impl Ranked for Odds {
    ghost below = { lower };

    ghost asymmetric = { lower_one_way };

    ghost chain = { lower_chain };

    #[tactic(auto, using(crate::proofs::Payments::no_lower_odds_pay_no_less, crate::proofs::Payments::lower_odds_pay_less))]
    fn is_below(&self, other: &Odds) -> bool
        ensures exceeded { result ≡ lower self.now other.now }
        ensures no_lower_odds_pay_no_less { result ≡ false → (wager : ℕ) → pays other.now wager ≤ pays self.now wager }
        ensures lower_odds_pay_less_on_some_wager { result ≡ true → (wager : ℕ) × (pays self.now wager < pays other.now wager) }
    {
        let crossed = u32::from(self.numerator) * u32::from(other.denominator);
        let other_crossed = u32::from(other.numerator) * u32::from(self.denominator);
        crossed < other_crossed
    }
}
