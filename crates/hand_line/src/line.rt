// A line that comes in byte by byte. However long it grows, its first fifteen bytes tell its answer, so that no line needs more memory.
ghost use Rattle.std.specs.Prelude.{◌≤◌, length};

use arrayvec::ArrayVec;

mod feeding;

// The text itself is nowhere kept, and a ghost field, which has to be a fact, cannot hold it; so the clauses of the methods speak of every text that
// the kept bytes stand for.
#[derive(Drop)]
pub struct Line {
    kept: ArrayVec<u8, 15>,
    ghost within: { length kept.items ≤ 15 },
}
