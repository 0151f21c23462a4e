// The walk over a log's answers, which puts their lines on a page.
ghost use Rattle.std.specs.Prelude.{List, ◌≡◌};
ghost use Rattle.answers.specs.Answers.{role_of};
ghost use Rattle.answers.specs.declared.Answer.{Answer as Answered};
ghost use Rattle.text.specs.Report.{lines_of};
ghost use Rattle.text.specs.Walk.{HoldsAll, Ordered, StandsAll, open_after, about_open, printed};

use crate::each::Answers;
use crate::page::Page;
use crate::season::put_totals;
use answers::Answer;
use day::Code;
use lines::whole::{CropLine, DayLine};

// A block: its station's code, and the index of its first answer.
#[derive(Clone, Copy)]
pub(crate) struct Block {
    pub code: Code,
    pub from: usize,
}

// What is about the block whose answers are the last of these. Inlined: where it is called, the block that is open is kept in memory, and read there at
// each answer.
#[inline(always)]
fn put_about<P: Page>(answers: Answers<'_>, block: Option<Block>, page: &mut P)
    requires { (seen : List Answered) × StandsAll answers.bytes.now block seen × P.Room page.old (about_open block seen) }
    ensures { (seen : List Answered) → StandsAll answers.entry.bytes.now block seen → P.Laid page.old (about_open block seen) page.new }
{
    if let Some(b) = block {
        let own = Answers {
            bytes: &answers.bytes[b.from..],
        };
        put_totals(own, b.code, page);
    }
}

// What an answer prints that stands behind these.
fn put_line<P: Page>(answers: Answers<'_>, block: Option<Block>, a: Answer, page: &mut P)
    requires { (seen : List Answered) × StandsAll answers.bytes.now block seen × P.Room page.old (printed block seen (role_of a) a) }
    ensures { (seen : List Answered) → StandsAll answers.entry.bytes.now block seen → P.Laid page.old (printed block seen (role_of a) a) page.new }
{
    match (a, block) {
        (Answer::Station(_), _) => put_about(answers, block, page),
        (Answer::Day { year, d, verdict }, Some(b)) => page.put(DayLine {
            code: b.code,
            year,
            d,
            verdict,
        }),
        (Answer::Crop { code, n }, Some(_)) => page.put(CropLine { code, n }),
        (Answer::Day { .. } | Answer::Crop { .. }, None) => {}
    }
}

// The block that is open after an answer that ends at `next`.
fn open_after(block: Option<Block>, a: Answer, next: usize) -> Option<Block>
    ensures { result ≡ open_after block (role_of a) next }
{
    match a {
        Answer::Station(code) => Some(Block { code, from: next }),
        Answer::Day { .. } | Answer::Crop { .. } => block,
    }
}

// The lines of the answers whose bytes these are.
pub(crate) fn put_lines<P: Page>(answers: Answers<'_>, page: &mut P)
    requires { (all : List Answered) × HoldsAll answers.bytes.now all × Ordered all × P.Room page.old (lines_of all) }
    ensures { (all : List Answered) → HoldsAll answers.entry.bytes.now all → Ordered all → P.Laid page.old (lines_of all) page.new }
{
    let mut block = None;
    for (at, a) in answers.each() {
        let before = Answers {
            bytes: &answers.bytes[..at],
        };
        put_line(before, block, a, page);
        block = open_after(block, a, at + a.size());
    }
    put_about(answers, block, page);
}
