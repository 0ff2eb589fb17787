// Tests of the ranking over all hands of one deck, against the totals that are known of poker.
#![tactic(auto)]

#[cfg(test)]
mod tests {
    use cards::card::Card;
    use cards::fault::TextFault;
    use cards::rank::Rank;
    use cards::reading::read_cards;
    use cards::suit::Suit;
    use itertools::Itertools;
    use ranking::class::Class;
    use ranking::five::value_of_five;
    use ranking::value::Value;
    use search::Ranked;
    use std::alloc::{AllocError, Global};
    use std::collections::{BTreeMap, BTreeSet};
    use std::test::Fail;

    // What is counted of the hands that were met.
    #[derive(Drop)]
    struct Tally {
        hands: u32,
        // how many hands there are of each class
        classes: BTreeMap<Class, u32>,
        // the different values
        values: BTreeSet<Value>,
    }

    impl Tally {
        fn new(heap: Global) -> Tally {
            Tally {
                hands: 0,
                classes: BTreeMap::new(heap),
                values: BTreeSet::new(heap),
            }
        }

        fn count(&mut self, hand: &[Card; 5]) -> Result<(), AllocError> {
            let value = value_of_five(hand);
            self.hands = self.hands.saturating_add(1);
            let hands = self.classes.entry(value.class)?.or_insert(0);
            *hands = hands.saturating_add(1);
            self.values.insert(value)?;
            Ok(())
        }
    }

    fn full_deck(heap: Global) -> Result<Vec<Card>, AllocError> {
        let mut deck = Vec::new(heap);
        for rank in Rank::ALL {
            for suit in Suit::ALL {
                deck.push(Card { rank, suit })?;
            }
        }
        Ok(deck)
    }

    #[test]
    fn all_hands_of_a_deck(rt: HostRuntime) -> Result<(), Fail> {
        let heap = rt.alloc();
        let mut tally = Tally::new(heap);
        for hand in full_deck(heap)?.into_iter().combinations(heap, 5)? {
            let hand = <[Card; 5]>::try_from(hand?.as_slice())?;
            tally.count(&hand)?;
        }
        let expected = [
            (Class::NoPair, 1_302_540),
            (Class::OnePair, 1_098_240),
            (Class::TwoPairs, 123_552),
            (Class::ThreeOfAKind, 54_912),
            (Class::Straight, 10_200),
            (Class::Flush, 5_108),
            (Class::FullHouse, 3_744),
            (Class::FourOfAKind, 624),
            (Class::StraightFlush, 36),
            (Class::RoyalFlush, 4),
        ];
        assert_eq!(rt; tally.hands, 2_598_960);
        for (class, hands) in expected {
            assert_eq!(rt; tally.classes.get(&class).copied(), Some(hands));
        }
        assert_eq!(rt; tally.values.len(), 7_462);
        Ok(())
    }

    // The value of five cards, each by its two letters.
    fn value_of(text: &[u8]) -> Result<Value, TextFault> {
        let (cards, _) = read_cards::<5>(text)?;
        Ok(value_of_five(&cards))
    }

    #[test]
    fn no_straight_goes_round_the_ace(rt: HostRuntime) -> Result<(), Fail> {
        let round = value_of(b"QcKdAh2s3c")?;
        assert_eq!(rt; round.class, Class::NoPair);
        assert_eq!(rt; round.ranks, [14, 13, 12, 3, 2]);
        Ok(())
    }

    #[test]
    fn lowest_straight_starts_at_the_ace(rt: HostRuntime) -> Result<(), Fail> {
        let low = value_of(b"Ah2c3d4s5h")?;
        assert_eq!(rt; low.class, Class::Straight);
        assert_eq!(rt; low.ranks, [5, 4, 3, 2, 1]);
        assert!(rt; low.is_below(&value_of(b"2c3d4s5h6h")?));
        Ok(())
    }

    #[test]
    fn three_equal_cards_decide_between_full_houses(rt: HostRuntime) -> Result<(), Fail> {
        let threes = value_of(b"3c3d3h4c4d")?;
        let twos = value_of(b"2c2d2hAcAd")?;
        assert_eq!(rt; threes.class, Class::FullHouse);
        assert_eq!(rt; twos.class, Class::FullHouse);
        assert!(rt; twos.is_below(&threes));
        assert!(rt; !threes.is_below(&twos));
        Ok(())
    }

    #[test]
    fn no_suit_is_higher(rt: HostRuntime) -> Result<(), Fail> {
        let clubs = value_of(b"2c5c7c9cKc")?;
        let spades = value_of(b"2s5s7s9sKs")?;
        assert_eq!(rt; clubs.class, Class::Flush);
        assert!(rt; !clubs.is_below(&spades));
        assert!(rt; !spades.is_below(&clubs));
        Ok(())
    }
}
