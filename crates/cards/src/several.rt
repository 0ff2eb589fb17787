// Several cards: whether one is among others, and whether all are different.
ghost use Rattle.std.specs.Prelude.{◌≡◌};
ghost use Rattle.cards.specs.Several.{among, different};

use crate::card::Card;

pub fn is_among(card: Card, others: &[Card]) -> bool
    ensures among { result ≡ among card others.now }
{
    others.contains(&card)
}

// From card to card, since the kit's `all_unique` wants memory.
pub fn all_different(cards: &[Card]) -> bool
    ensures different { result ≡ different cards.now }
{
    match cards {
        [] => true,
        [first, rest @ ..] => !is_among(*first, rest) && all_different(rest),
    }
}
