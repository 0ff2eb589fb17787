// A card: a rank and a suit, so that no value but the 52 cards can be held.
ghost use Rattle.std.specs.Prelude.{◌≡◌, ◌<◌, drop, IfOk, Ok, Err, MatchResult};
ghost use Rattle.cards.specs.Codes.{code_of, card_with_code, code_fault_number};
ghost use Rattle.cards.specs.Letters.{card_letters, card_in_front, WrittenSo};

use crate::fault::{CodeFault, TextFault};
use crate::rank::Rank;
use crate::suit::Suit;

#[derive(Clone, Copy, Debug, PartialEq, Eq, Hash)]
pub struct Card {
    pub rank: Rank,
    pub suit: Suit,
}

// A card's code, 4 × (rank − 2) + suit: 0 for the two of clubs to 51 for the ace of spades.
impl From<Card> for u8 {
    ghost from_gives = { λ card code. code ≡ code_of card };

    #[tactic(auto, using(crate::proofs::CodeBack::code_reads_back))]
    fn from(card: Card) -> u8
        ensures code { result ≡ code_of card }
        ensures reads_back { card_with_code result ≡ Ok card }
    {
        4 * (u8::from(card.rank) - 2) + u8::from(card.suit)
    }
}

// The card with this code. Any number may be asked for.
impl TryFrom<u64> for Card {
    type Error = CodeFault;

    ghost try_from_gives = { λ code card. card ≡ card_with_code code };

    #[tactic(auto, using(crate::proofs::CodeBack::code_kept))]
    fn try_from(code: u64) -> Result<Card, CodeFault>
        ensures card { result ≡ card_with_code code }
        ensures same_code { MatchResult result (λ c. code_of c ≡ code) (λ fault. (51 < code) × (code_fault_number fault ≡ 4)) }
    {
        if code > 51 {
            return Err(CodeFault::Above51);
        }
        let rank = Rank::ALL[(code / 4) as usize];
        let suit = Suit::ALL[(code % 4) as usize];
        Ok(Card { rank, suit })
    }
}

// The two letters of a card, rank first.
impl From<Card> for [char; 2] {
    ghost from_gives = { λ card letters. letters ≡ card_letters card };

    fn from(card: Card) -> [char; 2]
        ensures letters { result ≡ card_letters card }
        ensures reads_back { card_in_front result ≡ Ok card }
    {
        [char::from(card.rank), char::from(card.suit)]
    }
}

// The card that two letters stand for, rank first.
impl TryFrom<[char; 2]> for Card {
    type Error = TextFault;

    ghost try_from_gives = { λ letters card. card ≡ card_in_front letters };

    fn try_from(letters: [char; 2]) -> Result<Card, TextFault>
        ensures card { result ≡ card_in_front letters }
        ensures same_letters { WrittenSo letters result }
    {
        let [rank, suit] = letters;
        let rank = Rank::try_from(rank)?;
        let suit = Suit::try_from(suit)?;
        Ok(Card { rank, suit })
    }
}

impl Card {
    // The card at the front of a line, and the rest of the line behind its two letters: no conversion, since a rest is left.
    pub fn read(line: &[u8]) -> Result<(Card, &[u8]), TextFault>
        ensures card { MatchResult result (λ p. card_in_front line.now ≡ Ok p.0) (λ fault. card_in_front line.now ≡ Err fault) }
        ensures rest { IfOk result (λ p. p.1.now ≡ drop 2 line.now) }
    {
        match line {
            [rank, suit, rest @ ..] => {
                let card = Card::try_from([char::from(*rank), char::from(*suit)])?;
                Ok((card, rest))
            }
            _ => Err(TextFault::TooShort),
        }
    }
}
