// The ranks of five cards.
ghost use Rattle.std.specs.Prelude.{◌≡◌};
ghost use Rattle.ranking.specs.Counts.{AllRanks};
ghost use Rattle.ranking.specs.Descriptions.{ranks_of};

use cards::card::Card;

// The numbers of the ranks, each from 2 to 14. Numbers, taken once: as ranks they would be turned into numbers for the mask, for the groups and for
// the value, and their range would be wanted as a fact at each.
#[derive(Clone, Copy)]
pub(crate) struct FiveRanks {
    pub(crate) numbers: [u8; 5],
    ghost lawful: { AllRanks numbers },
}

impl FiveRanks {
    pub(crate) fn of(hand: &[Card; 5]) -> FiveRanks
        ensures { result.numbers ≡ ranks_of hand.now }
    {
        FiveRanks {
            numbers: hand.map(|card| u8::from(card.rank)),
        }
    }
}
