// The report of a log as text: the log's bytes in, the answers and the whole text in lent buffers.
#![tactic(auto)]

ghost use Rattle.std.specs.Prelude.{List, ◌++◌, ◌≡◌, ◌≤◌, length};
ghost use Rattle.promises.specs.CropFigures.{CropFiguresOwed};
ghost use Rattle.promises.specs.Demand.{FiguresOwed};
ghost use Rattle.station_log.specs.Log.{buffer_after, number_of_fault};
ghost use Rattle.answers.specs.declared.Answer.{Answer as Answered};
ghost use Rattle.text.specs.Report.{lines_of, report_of, whole_report, Prints, ReportOwed};
ghost use Rattle.lines.specs.Text.{header as Text·header};
ghost use Rattle.lines.specs.Text.{refused_line};
ghost use Rattle.text.specs.Walk.{longest_report, HoldsAll, Ordered};
ghost use Rattle.lines.specs.Written.{Written, AtFront};

use crate::answer_walk::put_lines;
use crate::each::Answers;
use crate::page::{Count, Page};
use lines::pen::Pen;
use lines::whole::{Header, RefusedLine};
use lines::{Line, alone};
use promises::read_log;
use station_log::Refused;

mod answer_walk;
mod each;
mod page;
mod season;

// A text buffer that is too short, and the length that it needs.
#[derive(Clone, Copy, Debug, PartialEq, Eq)]
pub struct TooShort {
    pub needed: usize,
}

// No log has longer answers, and none a longer report, than one station, one crop and 3,852 answered days with a crop figure each would have, all of
// them without their dew point and each in a month of its own.
pub const LONGEST_ANSWERS: usize = 69_341;

pub const LONGEST_REPORT: usize = 223_457;

// Writes a refused log's line from the front of a text.
fn write_refused(line: RefusedLine, text: &mut [u8]) -> usize
    requires { length (refused_line line.number line.value) ≤ length text.old }
    ensures { Written text.old 0 (refused_line line.number line.value) text.new result }
{
    let mut pen = Pen { text, at: 0 };
    line.put(&mut pen);
    pen.at
}

// A refused log's line. It is counted first, as answers are.
fn print_refused(refused: Refused, text: &mut [u8]) -> Result<usize, TooShort>
    ensures { Prints (refused_line (number_of_fault refused.why) refused.place) text.old result text.new }
{
    let line = RefusedLine {
        number: u8::from(refused.why),
        value: refused.place,
    };
    let needed = alone(line, &mut [0; 64]);
    if text.len() < needed {
        return Err(TooShort { needed });
    }
    Ok(write_refused(line, text))
}

// The header and the lines of the answers whose bytes these are.
fn put_report<P: Page>(answers: Answers<'_>, page: &mut P)
    requires { (all : List Answered) × HoldsAll answers.bytes.now all × Ordered all × P.Room page.old (Text·header ++ lines_of all) }
    ensures { (all : List Answered) → HoldsAll answers.entry.bytes.now all → Ordered all → P.Laid page.old (Text·header ++ lines_of all) page.new }
{
    page.put(Header);
    put_lines(answers, page);
}

// How long they are.
fn count_answers(answers: Answers<'_>) -> usize
    requires { (all : List Answered) × HoldsAll answers.bytes.now all × Ordered all × (length (Text·header ++ lines_of all) ≤ longest_report) }
    ensures { (all : List Answered) → HoldsAll answers.entry.bytes.now all → Ordered all → result ≡ length (Text·header ++ lines_of all) }
{
    let mut count = Count { bytes: 0 };
    put_report(answers, &mut count);
    count.bytes
}

// Writes them from the front of a text.
fn write_answers(answers: Answers<'_>, text: &mut [u8]) -> usize
    requires { (all : List Answered) × HoldsAll answers.bytes.now all × Ordered all × (length (Text·header ++ lines_of all) ≤ length text.old) }
    ensures { (all : List Answered) → HoldsAll answers.entry.bytes.now all → Ordered all → Written text.old 0 (Text·header ++ lines_of all) text.new result }
{
    let mut pen = Pen { text, at: 0 };
    put_report(answers, &mut pen);
    pen.at
}

// They are counted first, so that a text buffer that is too short is left as it was.
fn print_answers(answers: Answers<'_>, text: &mut [u8]) -> Result<usize, TooShort>
    requires { (all : List Answered) × HoldsAll answers.bytes.now all × Ordered all × (length (Text·header ++ lines_of all) ≤ longest_report) }
    ensures { (all : List Answered) → HoldsAll answers.entry.bytes.now all → Ordered all → Prints (Text·header ++ lines_of all) text.old result text.new }
{
    let needed = count_answers(answers);
    if text.len() < needed {
        return Err(TooShort { needed });
    }
    Ok(write_answers(answers, text))
}

// Reads a log and writes its report. The answers are left as `read_log` leaves them.
pub fn write_report(log: &[u8], answers: &mut [u8], text: &mut [u8]) -> Result<usize, TooShort>
    ensures prints { Prints (report_of log.now (length answers.old)) text.old result text.new }
    ensures report_owed { ReportOwed log.now answers.old text.old result text.new }
    ensures answers_after { answers.new ≡ buffer_after log.now answers.old }
    ensures figures_owed { FiguresOwed log.now answers.old answers.new }
    ensures crop_figures_owed { CropFiguresOwed log.now answers.old answers.new }
{
    match read_log(log, answers) {
        Err(refused) => print_refused(refused, text),
        Ok(n) => print_answers(
            Answers {
                bytes: &answers[..n],
            },
            text,
        ),
    }
}

// Reads a log and writes its report whole: both buffers are long enough for every log, so that none is too short.
pub fn whole_report(
    log: &[u8],
    answers: &mut [u8; LONGEST_ANSWERS],
    text: &mut [u8; LONGEST_REPORT],
) -> usize
    ensures at_front { AtFront text.old (whole_report log.now) text.new result × (result ≤ length text.old) }
    ensures answers_after { answers.new ≡ buffer_after log.now answers.old }
{
    write_report(log, answers, text).unwrap()
}
