// A paytable with no list at all: it computes what it answers.
ghost use Rattle.std.specs.Prelude.{◌≡◌};
ghost use Rattle.sheet_tests.specs.RateSheets.{rate_sheet};
ghost use Rattle.sheet_tests.specs.Rates.{rate_sheet_is_lawful};

use odds::Odds;
use paytables::paytable::{BEST_CLASS, Paytable};

// So many halves of the wager for each class, up to 1,000 halves.
#[derive(Clone, Copy)]
pub struct RateSheet {
    pub halves: u64,
}

impl Paytable for RateSheet {
    ghost sheet = { rate_sheet };

    ghost lawful = { rate_sheet_is_lawful };

    // any number may come as class
    fn entry(&self, class: u64) -> Option<Odds>
        ensures as_computed { result ≡ rate_sheet self.now class }
    {
        if class > BEST_CLASS {
            return None;
        }
        Odds::new(self.halves.saturating_mul(class).min(1000), 2)
    }
}
