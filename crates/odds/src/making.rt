// Making odds of any two figures, and reading the figures again.
ghost use Rattle.std.specs.Prelude.{◌≡◌};
ghost use Rattle.odds.specs.Figures.{figures, figures_in_range, odds_of};

use crate::Odds;

impl Odds {
    // Odds with these figures, or none where one of them is out of its range.
    pub fn new(numerator: u64, denominator: u64) -> Option<Odds>
        ensures made { result ≡ odds_of numerator denominator }
        ensures with_these_figures { figures result ≡ figures_in_range numerator denominator }
    {
        // `&` and not `&&`: of two ways and no more the check can name figures at which a wrong range fails
        let in_range = (1..=1000).contains(&numerator) & (1..=100).contains(&denominator);
        if !in_range {
            return None;
        }
        Some(Odds {
            numerator: numerator as u16,
            denominator: denominator as u8,
        })
    }

    pub fn numerator(self) -> u16
        ensures numerator { result ≡ self.numerator }
    {
        self.numerator
    }

    pub fn denominator(self) -> u8
        ensures denominator { result ≡ self.denominator }
    {
        self.denominator
    }
}
