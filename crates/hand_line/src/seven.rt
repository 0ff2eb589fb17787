// Reading seven different cards from a line.
ghost use Rattle.std.specs.Prelude.{◌≡◌};
ghost use Rattle.hand_line.specs.Seven.{seven_cards};

use cards::card::Card;
use cards::reading::read_cards;
use cards::several::all_different;

// The cards of a line that is exactly seven different cards, fourteen letters; any other line gives none.
pub fn seven_cards(line: &[u8]) -> Option<[Card; 7]>
    ensures seven_different { result ≡ seven_cards line.now }
{
    let (cards, rest) = read_cards(line).ok()?;
    if !rest.is_empty() {
        return None;
    }
    all_different(&cards).then_some(cards)
}
