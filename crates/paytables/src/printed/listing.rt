// Making a printed sheet of ten entries, and asking it.
ghost use Rattle.std.specs.Prelude.{◌≡◌};
ghost use Rattle.paytables.specs.Lists.{may_follow, rising};
ghost use Rattle.paytables.specs.Makes.{printed_sheet, entries_of, entries_if_rising, MadeWhereLawful};
ghost use Rattle.paytables.specs.RisingLaws.{rising_is_lawful};

use super::PrintedSheet;
use crate::paytable::{BEST_CLASS, Paytable};
use odds::Odds;
use search::Ranked;

impl PrintedSheet {
    // The sheet that lists these entries from class 0 up, or none where the list breaks the law.
    #[tactic(auto, using(crate::proofs::Rising::lawful_is_rising, crate::specs::RisingLaws::rising_is_lawful))]
    pub fn new(entries: [Option<Odds>; 10]) -> Option<PrintedSheet>
        ensures lists_the_entries { entries_of result ≡ entries_if_rising entries }
        ensures made_where_lawful { MadeWhereLawful entries result }
    {
        if !rising(&entries) {
            return None;
        }
        Some(PrintedSheet { entries })
    }
}

impl Paytable for PrintedSheet {
    ghost sheet = { printed_sheet };

    ghost lawful = { λ sheet. rising_is_lawful sheet.entries sheet.ten sheet.rising };

    // any number may come as class
    fn entry(&self, class: u64) -> Option<Odds>
        ensures as_listed { result ≡ printed_sheet self.now class }
    {
        if class > BEST_CLASS {
            return None;
        }
        self.entries[class as usize]
    }
}

// Whether each entry may follow the one before it; nothing stands below the first.
fn rising(entries: &[Option<Odds>; 10]) -> bool
    ensures { result ≡ rising entries.now }
{
    entries.is_sorted_by(|entry, next| may_follow(*entry, *next))
}

// Whether `next` may stand for the class above that of `entry`.
fn may_follow(entry: Option<Odds>, next: Option<Odds>) -> bool
    ensures { result ≡ may_follow entry next }
{
    entry.is_none_or(|odds| next.is_some_and(|better| !better.is_below(&odds)))
}
