// The lines of a report as text, each with its newline: laid over a lent text by a pen, or in a buffer of its own.
#![tactic(auto)]

ghost use Rattle.std.specs.Prelude.{List, ℕ, ◌≤◌, length};
ghost use Rattle.lines.specs.Pen.{Fits, Wrote};
ghost use Rattle.lines.specs.Written.{AtFront};

use crate::pen::Pen;

pub mod pen;
pub mod whole;

// A line that is not written yet. No line has more than 64 bytes, so each asks no more of the pen than the room for 64, and no more than its own.
pub trait Line {
    ghost text: { Self → List ℕ };

    fn put(self, pen: &mut Pen<'_>)
        requires { length (text self) ≤ 64 → Fits pen.old (text self) }
        ensures { Wrote pen.old (text self) pen.new };
}

// One line in a buffer of its own, and how long it is. Nothing is asked of the caller.
pub fn alone<L: Line>(line: L, out: &mut [u8; 64]) -> usize
    ensures { AtFront out.old (L.text line) out.new result }
{
    let mut pen = Pen { text: out, at: 0 };
    line.put(&mut pen);
    pen.at
}
