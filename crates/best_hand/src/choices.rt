// All choices of five from seven.
ghost use Rattle.std.specs.Prelude.{◌≡◌};
ghost use Rattle.best_hand.specs.Choices.{choose};

// The 21 choices, in order of places.
#[tactic(auto, using(crate::proofs::Seven::seven_items))]
pub fn choices<T: Copy>(seven: &[T; 7]) -> [[T; 5]; 21]
    ensures in_order_of_places { result ≡ choose 5 seven.now }
{
    let [a, b, c, d, e, f, g] = *seven;
    [
        [a, b, c, d, e],
        [a, b, c, d, f],
        [a, b, c, d, g],
        [a, b, c, e, f],
        [a, b, c, e, g],
        [a, b, c, f, g],
        [a, b, d, e, f],
        [a, b, d, e, g],
        [a, b, d, f, g],
        [a, b, e, f, g],
        [a, c, d, e, f],
        [a, c, d, e, g],
        [a, c, d, f, g],
        [a, c, e, f, g],
        [a, d, e, f, g],
        [b, c, d, e, f],
        [b, c, d, e, g],
        [b, c, d, f, g],
        [b, c, e, f, g],
        [b, d, e, f, g],
        [c, d, e, f, g],
    ]
}
