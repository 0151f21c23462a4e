// Where the lines of a report go: to a lent text, or to a count of their bytes, which says how long a text they need.
ghost use Rattle.std.specs.Prelude.{◌≡◌, ◌+◌, ◌≤◌, List, ℕ, length};
ghost use Rattle.text.specs.Page.{PageLaws};
ghost use Rattle.text.specs.Walk.{longest_report};
ghost use Rattle.lines.specs.Pen.{Fits, Wrote};

use lines::pen::Pen;
use lines::{Line, alone};

// Lines are put on it one behind another. `Room` says that a text has a place there, and `Laid` what it is with the text on it.
pub(crate) trait Page {
    ghost Room: { Self → List ℕ → Type 0 };

    ghost Laid: { Self → List ℕ → Self → Type 0 };

    fn put<L: Line>(&mut self, line: L)
        requires { Room self.old (L.text line) }
        ensures { Laid self.old (L.text line) self.new };

    ghost laws: { PageLaws Room Laid };
}

impl Page for Pen<'_> {
    ghost use Rattle.text.specs.Pages.{pen_laws};

    ghost Room = { Fits };

    ghost Laid = { Wrote };

    fn put<L: Line>(&mut self, line: L) {
        line.put(self);
    }

    ghost laws = { pen_laws };
}

// The number of bytes.
#[derive(Clone, Copy)]
pub(crate) struct Count {
    pub bytes: usize,
}

impl Page for Count {
    ghost use Rattle.text.specs.Pages.{count_laws};

    ghost Room = { λ count text. count.bytes + length text ≤ longest_report };

    ghost Laid = { λ count text more. more.bytes ≡ count.bytes + length text };

    fn put<L: Line>(&mut self, line: L) {
        self.bytes += alone(line, &mut [0; 64]);
    }

    ghost laws = { count_laws };
}
