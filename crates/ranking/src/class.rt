// The classes of poker hands.
ghost use Rattle.std.specs.Prelude.{◌≡◌};
ghost use Rattle.ranking.specs.Classes.{class_number};

// From the lowest to the best.
#[derive(Clone, Copy, Debug, PartialEq, Eq, PartialOrd, Ord, Hash)]
pub enum Class {
    NoPair,
    OnePair,
    TwoPairs,
    ThreeOfAKind,
    Straight,
    Flush,
    FullHouse,
    FourOfAKind,
    StraightFlush,
    RoyalFlush,
}

// 0 to 9; the higher, the better.
impl From<Class> for u8 {
    ghost from_gives = { λ class n. n ≡ class_number class };

    fn from(class: Class) -> u8
        ensures number { result ≡ class_number class }
    {
        class as u8
    }
}
