// The rank of a card.
ghost use Rattle.std.specs.Prelude.{◌≡◌, MatchResult, ◌≢◌};
ghost use Rattle.cards.specs.Ranks.{rank_number, rank_letter};
ghost use Rattle.cards.specs.Letters.{rank_lettered};

use crate::fault::TextFault;

// Ordered from the lowest to the highest, which is the ace.
#[derive(Clone, Copy, Debug, PartialEq, Eq, PartialOrd, Ord, Hash)]
pub enum Rank {
    Two = 2,
    Three,
    Four,
    Five,
    Six,
    Seven,
    Eight,
    Nine,
    Ten,
    Jack,
    Queen,
    King,
    Ace,
}

impl Rank {
    // All ranks, from the lowest.
    pub const ALL: [Rank; 13] = [
        Rank::Two,
        Rank::Three,
        Rank::Four,
        Rank::Five,
        Rank::Six,
        Rank::Seven,
        Rank::Eight,
        Rank::Nine,
        Rank::Ten,
        Rank::Jack,
        Rank::Queen,
        Rank::King,
        Rank::Ace,
    ];
}

// A rank's number: 2 to 14; the ace is the highest.
impl From<Rank> for u8 {
    ghost from_gives = { λ rank number. number ≡ rank_number rank };

    fn from(rank: Rank) -> u8
        ensures number { result ≡ rank_number rank }
    {
        rank as u8
    }
}

// The letter that stands for a rank.
impl From<Rank> for char {
    ghost from_gives = { λ rank letter. letter ≡ rank_letter rank };

    fn from(rank: Rank) -> char
        ensures letter { result ≡ rank_letter rank }
    {
        match rank {
            Rank::Two => '2',
            Rank::Three => '3',
            Rank::Four => '4',
            Rank::Five => '5',
            Rank::Six => '6',
            Rank::Seven => '7',
            Rank::Eight => '8',
            Rank::Nine => '9',
            Rank::Ten => 'T',
            Rank::Jack => 'J',
            Rank::Queen => 'Q',
            Rank::King => 'K',
            Rank::Ace => 'A',
        }
    }
}

// The rank that a letter stands for, by cases on the letters. Only these: a small `t` is none.
impl TryFrom<char> for Rank {
    type Error = TextFault;

    ghost try_from_gives = { λ letter rank. rank ≡ rank_lettered letter };

    fn try_from(letter: char) -> Result<Rank, TextFault>
        ensures rank { result ≡ rank_lettered letter }
        ensures same_letter { MatchResult result (λ k. rank_letter k ≡ letter) (λ _. (k : Rank) → rank_letter k ≢ letter) }
    {
        match letter {
            '2' => Ok(Rank::Two),
            '3' => Ok(Rank::Three),
            '4' => Ok(Rank::Four),
            '5' => Ok(Rank::Five),
            '6' => Ok(Rank::Six),
            '7' => Ok(Rank::Seven),
            '8' => Ok(Rank::Eight),
            '9' => Ok(Rank::Nine),
            'T' => Ok(Rank::Ten),
            'J' => Ok(Rank::Jack),
            'Q' => Ok(Rank::Queen),
            'K' => Ok(Rank::King),
            'A' => Ok(Rank::Ace),
            _ => Err(TextFault::NoSuchRank(letter)),
        }
    }
}
