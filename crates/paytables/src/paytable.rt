// A paytable of any make: to a class it answers an entry or none.
ghost use Rattle.std.specs.Prelude.{◌≡◌, ℕ, ◌≤◌};
ghost use Rattle.paytables.specs.Sheets.{Sheet, Lawful, entry_pays, paid_at, RoundedDownAt};

use odds::Odds;

// The number of the best class; above it no sheet has an entry.
pub const BEST_CLASS: u64 = 9;

// Classes are asked for by number, 0 to 9, and any number may come: a rule of the table, and an enum would ask more of callers. An entry keeps its
// ranges by its type.
pub trait Paytable {
    // what it answers to each class; it rests on the paytable alone, so the same question always has the same answer
    ghost sheet: { Self → Sheet };

    fn entry(&self, class: u64) -> Option<Odds>
        ensures answered { result ≡ sheet self.now class };

    ghost lawful: { (p : Self) → Lawful (sheet p) };
}

// What an entry pays on a wager: nothing where there is none. An entry, too, may pay nothing on a small wager.
pub fn entry_pays(entry: Option<Odds>, wager: u32) -> u64
    ensures paid { result ≡ entry_pays entry wager }
    ensures rounded_down { RoundedDownAt entry wager result }
{
    entry.map_or(0, |odds| odds.pays(wager))
}

// What a sheet pays at a class on a wager. Any number may come as class.
#[tactic(auto, using(crate::proofs::PaidAt::better_class_pays_no_less, crate::proofs::PaidAt::larger_wager_is_paid_no_less))]
pub fn paid_at<P: Paytable>(paytable: &P, class: u64, wager: u32) -> u64
    ensures paid { result ≡ paid_at (P.sheet paytable.now) class wager }
    ensures rounded_down { RoundedDownAt (P.sheet paytable.now class) wager result }
    ensures better_class_pays_no_less { (better : ℕ) → class ≤ better → better ≤ 9 → result ≤ paid_at (P.sheet paytable.now) better wager }
    ensures larger_wager_is_paid_no_less { (larger : ℕ) → wager ≤ larger → result ≤ paid_at (P.sheet paytable.now) class larger }
{
    entry_pays(paytable.entry(class), wager)
}
