// Straights, by a mask of ranks.
ghost use Rattle.std.specs.Prelude.{◌≡◌};
ghost use Rattle.ranking.specs.Counts.{held};
ghost use Rattle.ranking.specs.Masks.{masked, RunStart, Told};

use crate::ranks::FiveRanks;

// Where a straight starts is told by the number of its lowest rank: ten for the one up to the ace, and one where the ace stands below the two, which is
// no card's rank.
pub(crate) const FROM_TEN: u8 = 10;

pub(crate) const FROM_ACE: u8 = 1;

// The bit of the ace, at place 14.
const ACE: u32 = 1 << 14;

// Where a mask is five ones in a row, the place of the lowest of them: five ones, and no zero between the zeros above and those below.
fn run_start(mask: u32) -> Option<u8>
    ensures { RunStart mask result }
{
    let ones = mask.count_ones();
    let outside = mask.leading_zeros() + mask.trailing_zeros();
    (ones == 5 && outside == 27).then_some(mask.trailing_zeros() as u8)
}

impl FiveRanks {
    // The ranks as a mask: bit r is set where r is among them.
    fn mask(self) -> u32
        ensures { result ≡ masked 0 self.numbers }
    {
        let mut mask = 0u32;
        for r in self.numbers {
            mask |= 1 << r;
        }
        mask
    }

    // From which rank the straight of these ranks runs, if they make one: 1 where the ace stands below the two.
    pub(crate) fn straight_start(self) -> Option<u8>
        ensures { Told (held self.numbers) result }
    {
        let mask = self.mask();
        // The ace moved from place 14 to place 1, below the two: a run that is there only now starts with it.
        let ace_low = mask % ACE + mask / ACE * 2;
        run_start(mask).or(run_start(ace_low).and(Some(FROM_ACE)))
    }
}
