// One search for the highest, for every ranked kind of thing.
#![tactic(auto)]

ghost use Rattle.std.specs.Prelude.{◌≡◌, Bool, true, false};
ghost use Rattle.search.specs.Highest.{highest_place, FirstHighest};

// A ranked thing. Its order is total: of two things one exceeds the other or they are equal in rank, and things of equal rank may still differ, which
// `Ord` would not have.
pub trait Ranked {
    // `below x y`: y exceeds x
    ghost below: { Self → Self → Bool };

    fn is_below(&self, other: &Self) -> bool
        ensures exceeded { result ≡ below self.now other.now };

    ghost asymmetric: { (x y : Self) → below x y ≡ true → below y x ≡ false };

    ghost chain: { (x y z : Self) → below x y ≡ false → below y z ≡ false → below x z ≡ false };
}

// The place of the first thing that none exceeds, or none for an empty list.
pub fn highest<T: Ranked>(items: &[T]) -> Option<usize>
    ensures place { result ≡ highest_place T.below items.now }
    ensures none_exceeds { FirstHighest T.below items.now result }
{
    // of equals the first leads on, where `max_by` would keep the last
    items
        .iter()
        .enumerate()
        .reduce(|best, next| if best.1.is_below(next.1) { next } else { best })
        .map(|(place, _)| place)
}
