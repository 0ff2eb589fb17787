// Hands worked out from the written rules, and the code's answers to them.
ghost use Rattle.std.specs.Prelude.{◌≡◌, [], ◌∷◌, codes};
ghost use Rattle.hand_line.specs.Answers.{answer_of};
ghost use Rattle.best_hand.specs.Worked.{WorkedHands};

use crate::answer::Answer;

// A royal flush, a straight with the ace low, and a hand in which the ace joins no ends.
#[tactic(auto, using(best_hand::proofs::Computed::worked_hands))]
pub fn worked_hands() -> [Answer; 3]
    ensures rules { WorkedHands }
    ensures answers { result ≡ answer_of (codes "AhKhQhJhTh2c2d") ∷ answer_of (codes "Ac2d3h4s5c9dKd") ∷ answer_of (codes "QcKdAh2s3c7d9h") ∷ [] }
{
    [
        Answer::to_line(b"AhKhQhJhTh2c2d"),
        Answer::to_line(b"Ac2d3h4s5c9dKd"),
        Answer::to_line(b"QcKdAh2s3c7d9h"),
    ]
}
