// The value of five cards.
ghost use Rattle.std.specs.Prelude.{◌≡◌, [], ◌∷◌, is_some, if◌then◌else◌};
ghost use Rattle.ranking.specs.Masks.{starts_at};
ghost use Rattle.ranking.specs.Descriptions.{one_suit};
ghost use Rattle.ranking.specs.Groups.{joined_class};
ghost use Rattle.ranking.specs.Values.{value_of, BestDescribed, WellRead};

use crate::class::Class;
use crate::ranks::FiveRanks;
use crate::straight::{FROM_ACE, FROM_TEN};
use crate::value::Value;
use cards::card::Card;

// The value of five cards. They need not all be different: a repeated card counts as often as it is there.
pub fn value_of_five(hand: &[Card; 5]) -> Value
    ensures value { result ≡ value_of hand.now }
    ensures best_class { BestDescribed hand.now result.class }
    ensures well_read { WellRead hand.now result.ranks }
{
    let ranks = FiveRanks::of(hand);
    let start = ranks.straight_start();
    let groups = ranks.groups();
    let class = class_from(suited(hand), start, groups.class);
    let ranks = read_from(start, groups.ranks);
    Value { class, ranks }
}

// A straight with the ace low reads 5 4 3 2 1; any other hand by its groups.
fn read_from(start: Option<u8>, by_groups: [u8; 5]) -> [u8; 5]
    ensures { result ≡ (if starts_at start 1 then 5 ∷ 4 ∷ 3 ∷ 2 ∷ 1 ∷ [] else by_groups) }
{
    match start {
        Some(FROM_ACE) => [5, 4, 3, 2, 1],
        _ => by_groups,
    }
}

// The best class of a hand, given whether it is of one suit, where its straight starts, and the best class of its groups.
fn class_from(suited: bool, start: Option<u8>, groups: Class) -> Class
    ensures { result ≡ joined_class suited (is_some start) (starts_at start 10) groups }
{
    match (suited, start) {
        (true, Some(FROM_TEN)) => Class::RoyalFlush,
        (true, Some(_)) => Class::StraightFlush,
        (_, _) if groups >= Class::FullHouse => groups,
        (true, None) => Class::Flush,
        (false, Some(_)) => Class::Straight,
        (false, None) => groups,
    }
}

// All cards have the suit of the first.
fn suited(hand: &[Card; 5]) -> bool
    ensures { result ≡ one_suit hand.now }
{
    let suit = hand[0].suit;
    hand.iter().all(|card| card.suit == suit)
}
