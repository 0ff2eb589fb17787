// Feeding a line.
ghost use Rattle.std.specs.Prelude.{◌≡◌, ℕ, List, []};
ghost use Rattle.hand_line.specs.Answers.{answer_of};
ghost use Rattle.hand_line.specs.Lines.{StandsFor, text_after, told_at, told_at_end, OneAnswerALine};

use super::Line;
use crate::answer::Answer;
use arrayvec::ArrayVec;

impl Line {
    // Nothing has come in yet. Fed byte by byte from here and then ended, any input is told one answer for each of its lines, in order.
    #[tactic(auto, using(crate::proofs::WholeInput::one_answer_a_line))]
    pub fn new() -> Line
        ensures empty { StandsFor result [] }
        ensures one_answer_a_line { OneAnswerALine }
    {
        Line {
            kept: ArrayVec::new(),
        }
    }

    // One byte more of the input: the answer to the line that it ends, if it ends one.
    #[tactic(auto, using(crate::proofs::Fifteen::one_more_kept, crate::proofs::Fifteen::no_more_kept))]
    pub fn feed(&mut self, byte: u8) -> Option<Answer>
        ensures told { (text : List ℕ) → StandsFor self.old text → result ≡ told_at text byte }
        ensures line_after { (text : List ℕ) → StandsFor self.old text → StandsFor self.new (text_after text byte) }
    {
        if byte == b'\n' {
            let answer = self.answer();
            self.kept.clear();
            return Some(answer);
        }
        // A byte that does not fit is dropped: those kept tell the answer.
        let _ = self.kept.try_push(byte);
        None
    }

    // The input ends: the answer to its last line, if one has begun.
    pub fn end(&self) -> Option<Answer>
        ensures told { (text : List ℕ) → StandsFor self.now text → result ≡ told_at_end text }
    {
        (!self.kept.is_empty()).then(|| self.answer())
    }

    #[tactic(auto, using(crate::proofs::Fifteen::fifteen_tell))]
    fn answer(&self) -> Answer
        ensures { (text : List ℕ) → StandsFor self.now text → result ≡ answer_of text }
    {
        Answer::to_line(&self.kept)
    }
}
