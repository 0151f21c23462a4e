// The lines about a whole block, behind those of its answers: the totals of its months in date order, and of its season.
ghost use Rattle.std.specs.Prelude.{List};
ghost use Rattle.answers.specs.declared.Answer.{Answer as Answered};
ghost use Rattle.text.specs.Report.{month_text, about_block};
ghost use Rattle.text.specs.Walk.{HoldsAll};
ghost use Rattle.totals.specs.Tally.{ended, InMonthOrder};

use crate::each::Answers;
use crate::page::Page;
use day::Code;
use lines::whole::{MonthLine, SeasonLine};
use totals::tally::{Counted, Tally, counted_of};

// The line of the month that is open, if it had an answered day. Inlined: where it is called, the totals are kept in memory, and written there at each
// answer.
#[inline(always)]
fn put_month<P: Page>(code: Code, tally: Tally, page: &mut P)
    requires { P.Room page.old (month_text code tally.year tally.month tally.total) }
    ensures { P.Laid page.old (month_text code tally.year tally.month tally.total) page.new }
{
    if tally.total.days == 0 {
        return;
    }
    page.put(MonthLine {
        code,
        year: tally.year,
        month: tally.month,
        total: tally.total,
    });
}

// The same, where the month ends before what is counted.
fn put_ended<P: Page>(code: Code, tally: Tally, counted: Option<Counted>, page: &mut P)
    requires { P.Room page.old (ended (month_text code) tally counted) }
    ensures { P.Laid page.old (ended (month_text code) tally counted) page.new }
{
    if tally.ends_month(counted) {
        put_month(code, tally, page);
    }
}

// The lines about the block that has these answers. They are in date order, so a month ends where another begins, and nothing is kept but the month that
// is open and the season.
pub(crate) fn put_totals<P: Page>(answers: Answers<'_>, code: Code, page: &mut P)
    requires { (own : List Answered) × HoldsAll answers.bytes.now own × InMonthOrder 0 own × P.Room page.old (about_block code own) }
    ensures { (own : List Answered) → HoldsAll answers.entry.bytes.now own → InMonthOrder 0 own → P.Laid page.old (about_block code own) page.new }
{
    let mut totals = Tally::start();
    for (_, a) in answers.each() {
        let counted = counted_of(a);
        put_ended(code, totals, counted, page);
        totals = totals.tallied(counted);
    }
    put_month(code, totals, page);
    page.put(SeasonLine {
        code,
        total: totals.season,
    });
}
