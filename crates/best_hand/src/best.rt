// The best hand of seven cards.
ghost use Rattle.std.specs.Prelude.{◌≡◌, List};
ghost use Rattle.std.specs.List.Sorted.{IsPermutation};
ghost use Rattle.ranking.specs.Values.{value_of};
ghost use Rattle.best_hand.specs.Best.{best_hand, HighestOfChoices};

use crate::choices::choices;
use cards::card::Card;
use ranking::five::value_of_five;
use ranking::value::Value;
use search::highest;

// The best hand that can be made of seven cards. Hands are compared by their values alone.
#[derive(Clone, Copy, Debug)]
pub struct BestHand {
    pub value: Value,
}

impl BestHand {
    // The highest of the 21 choices of five.
    pub fn of_seven(cards: &[Card; 7]) -> BestHand
        ensures hand { result ≡ best_hand cards.now }
        ensures highest { HighestOfChoices cards.now result.value }
        ensures any_order { (others : List Card) → IsPermutation cards.now others → (best_hand others).value ≡ result.value }
    {
        // the closure has a clause, since of one that borrows its parameter nothing is known without
        let values = choices(cards).map(
            |hand|
                ensures { result ≡ value_of hand }
            { value_of_five(&hand) },
        );
        // among 21 values there is a highest
        let first = highest(&values).unwrap();
        BestHand {
            value: values[first],
        }
    }
}
