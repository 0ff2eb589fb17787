// A stepped sheet: the same entry from a stated class upward.
ghost use Rattle.std.specs.Prelude.{◌≡◌};
ghost use Rattle.paytables.specs.Makes.{stepped_sheet};
ghost use Rattle.std.proofs.Common.{rules};

use crate::paytable::{BEST_CLASS, Paytable};
use odds::Odds;

// Any number may be stated: above 9 the sheet has no entry.
#[derive(Clone, Copy, Debug, PartialEq, Eq)]
pub struct SteppedSheet {
    pub from: u64,
    pub odds: Odds,
}

impl Paytable for SteppedSheet {
    ghost sheet = { stepped_sheet };

    ghost lawful = { Prim.search rules };

    // any number may come as class
    fn entry(&self, class: u64) -> Option<Odds>
        ensures as_stated { result ≡ stepped_sheet self.now class }
    {
        (self.from..=BEST_CLASS)
            .contains(&class)
            .then_some(self.odds)
    }
}
