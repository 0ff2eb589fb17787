// The answer to a line.
ghost use Rattle.std.specs.Prelude.{◌≡◌, Some};
ghost use Rattle.best_hand.specs.Best.{best_hand};
ghost use Rattle.hand_line.specs.Answers.{answer_of, answer_text};

use crate::seven::seven_cards;
use best_hand::best::BestHand;
use cards::card::Card;
use ranking::value::Value;
use std::fmt;

// The value of the best hand of seven cards; none for a line that is not seven different cards.
#[derive(Clone, Copy, Debug, PartialEq, Eq)]
pub struct Answer {
    pub best: Option<Value>,
}

impl Answer {
    #[tactic(auto, unfolding(crate::specs::Answers::answer_of))]
    pub fn to_line(line: &[u8]) -> Answer
        ensures answer { result ≡ answer_of line.now }
    {
        Answer {
            best: seven_cards(line).map(best_value),
        }
    }
}

fn best_value(cards: [Card; 7]) -> Value
    ensures { result ≡ (best_hand cards).value }
{
    BestHand::of_seven(&cards).value
}

// The class and the five ranks, or a dash where there is no hand.
impl fmt::Display for Answer {
    ghost output = { λ a. Some (answer_text a) };

    fn fmt<W: fmt::Write>(&self, f: &mut fmt::Formatter<W>) -> fmt::Result {
        let Some(value) = self.best else {
            return f.write_str("-");
        };
        let class = u8::from(value.class);
        let [a, b, c, d, e] = value.ranks;
        write!(f, "{class} {a} {b} {c} {d} {e}")
    }
}
