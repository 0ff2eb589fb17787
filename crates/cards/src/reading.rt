// Reading several cards from a line.
ghost use Rattle.std.specs.Prelude.{◌≡◌, ◌*◌, ℕ, List, length, drop, IfOk, Ok, Err, MatchResult};
ghost use Rattle.cards.specs.Several.{cards_in_front, InFront};

use crate::card::Card;
use crate::fault::TextFault;
use crate::rank::Rank;
use crate::suit::Suit;

// N cards at the front of a line, and the rest of the line behind them. The line is the letters of the cards and then the rest; where a fault is told,
// no N cards stand there.
pub fn read_cards<const N: usize>(line: &[u8]) -> Result<([Card; N], &[u8]), TextFault>
    ensures cards { MatchResult result (λ p. cards_in_front N line.now ≡ Ok p.0) (λ fault. cards_in_front N line.now ≡ Err fault) }
    ensures rest { IfOk result (λ p. p.1.now ≡ drop (2 * N) line.now) }
    ensures written_so { MatchResult result (λ p. InFront p.0 p.1.now line.now)
        (λ _. (cs : List Card) (rest : List ℕ) → length cs ≡ N → InFront cs rest line.now → ⊥) }
{
    // every place is read over: an `ArrayVec` would want a default card too, and what `try_from_fn` promises would not follow the rest of the line
    let unread = Card {
        rank: Rank::Two,
        suit: Suit::Clubs,
    };
    let mut cards = [unread; N];
    let mut rest = line;
    for card in &mut cards {
        (*card, rest) = Card::read(rest)?;
    }
    Ok((cards, rest))
}
