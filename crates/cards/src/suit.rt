// The suit of a card.
ghost use Rattle.std.specs.Prelude.{◌≡◌, MatchResult, ◌≢◌};
ghost use Rattle.cards.specs.Suits.{suit_number, suit_letter};
ghost use Rattle.cards.specs.Letters.{suit_lettered};

use crate::fault::TextFault;

// No suit is higher than another, so suits have no order.
#[derive(Clone, Copy, Debug, PartialEq, Eq, Hash)]
pub enum Suit {
    Clubs,
    Diamonds,
    Hearts,
    Spades,
}

impl Suit {
    pub const ALL: [Suit; 4] = [Suit::Clubs, Suit::Diamonds, Suit::Hearts, Suit::Spades];
}

// A suit's number, 0 to 3, which only serves a card's code.
impl From<Suit> for u8 {
    ghost from_gives = { λ suit number. number ≡ suit_number suit };

    fn from(suit: Suit) -> u8
        ensures number { result ≡ suit_number suit }
    {
        suit as u8
    }
}

// The letter that stands for a suit.
impl From<Suit> for char {
    ghost from_gives = { λ suit letter. letter ≡ suit_letter suit };

    fn from(suit: Suit) -> char
        ensures letter { result ≡ suit_letter suit }
    {
        match suit {
            Suit::Clubs => 'c',
            Suit::Diamonds => 'd',
            Suit::Hearts => 'h',
            Suit::Spades => 's',
        }
    }
}

// The suit that a letter stands for, by cases on the letters. Only these: a capital `C` is none.
impl TryFrom<char> for Suit {
    type Error = TextFault;

    ghost try_from_gives = { λ letter suit. suit ≡ suit_lettered letter };

    fn try_from(letter: char) -> Result<Suit, TextFault>
        ensures suit { result ≡ suit_lettered letter }
        ensures same_letter { MatchResult result (λ k. suit_letter k ≡ letter) (λ _. (k : Suit) → suit_letter k ≢ letter) }
    {
        match letter {
            'c' => Ok(Suit::Clubs),
            'd' => Ok(Suit::Diamonds),
            'h' => Ok(Suit::Hearts),
            's' => Ok(Suit::Spades),
            _ => Err(TextFault::NoSuchSuit(letter)),
        }
    }
}
