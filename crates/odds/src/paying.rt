// What odds pay.
ghost use Rattle.std.specs.Prelude.{◌≡◌};
ghost use Rattle.odds.specs.Payment.{pays, RoundedDown};

use crate::Odds;

impl Odds {
    // Wager × numerator / denominator, rounded down; the answer's type holds it for every wager.
    #[tactic(auto, unfolding(crate::specs::Payment::pays))]
    pub fn pays(self, wager: u32) -> u64
        ensures paid { result ≡ pays self wager }
        ensures rounded_down { RoundedDown self wager result }
    {
        u64::from(wager) * u64::from(self.numerator) / u64::from(self.denominator)
    }
}
