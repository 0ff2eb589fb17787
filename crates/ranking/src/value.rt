// The value of a hand, and the order of values.
ghost use Rattle.std.specs.Prelude.{◌≡◌, false};
ghost use Rattle.ranking.specs.Order.{lower, lower_ranks};
ghost use Rattle.ranking.specs.LowerLaws.{lower_asymmetric, lower_chain};

use crate::class::Class;
use search::Ranked;

// A hand's class and its five ranks, in the order in which they are read.
#[derive(Clone, Copy, Debug, PartialEq, Eq, PartialOrd, Ord, Hash)]
pub struct Value {
    pub class: Class,
    // numbers, since the ace of a low straight reads 1, which is no card's rank
    pub ranks: [u8; 5],
}

// Class decides, then the ranks from the left.
impl Ranked for Value {
    ghost below = { lower };

    ghost asymmetric = { lower_asymmetric };

    ghost chain = { lower_chain };

    #[tactic(auto, using(crate::proofs::Lower::lower_derived, crate::proofs::Lower::lower_same))]
    fn is_below(&self, other: &Value) -> bool
        ensures exceeded { result ≡ lower self.now other.now }
        ensures level_is_same { result ≡ false → lower other.now self.now ≡ false → self.now ≡ other.now }
    {
        self < other
    }
}
