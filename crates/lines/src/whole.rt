// The lines of a report, by what stands in them.
ghost use Rattle.std.specs.Prelude.{◌≤◌, length};
ghost use Rattle.lines.specs.Pen.{Fits, Wrote};
ghost use Rattle.lines.specs.Text.{header, day_line, crop_line, totals, month_line, season_line, refused_line};

use crate::Line;
use crate::pen::Pen;
use day::{Code, Verdict};
use totals::tally::Total;

// The line above the days.
#[derive(Clone, Copy)]
pub struct Header;

impl Line for Header {
    ghost text = { λ line. header };

    fn put(self, pen: &mut Pen<'_>) {
        pen.put_bytes(b"STN YEAR DAY ET\n");
    }
}

// The line of a day.
#[derive(Clone, Copy)]
pub struct DayLine {
    pub code: Code,
    pub year: u16,
    pub d: u16,
    pub verdict: Verdict,
}

impl Line for DayLine {
    ghost text = { λ line. day_line line.code line.year line.d line.verdict };

    fn put(self, pen: &mut Pen<'_>) {
        pen.put_code(self.code);
        pen.put_number_field(4, u64::from(self.year));
        pen.put_number_field(3, u64::from(self.d));
        pen.put_verdict_field(self.verdict);
        pen.put_bytes(b"\n");
    }
}

// The line of a crop's figure.
#[derive(Clone, Copy)]
pub struct CropLine {
    pub code: Code,
    pub n: u32,
}

impl Line for CropLine {
    ghost text = { λ line. crop_line line.code line.n };

    fn put(self, pen: &mut Pen<'_>) {
        pen.put_code(self.code);
        pen.put_inches_field(u64::from(self.n));
        pen.put_bytes(b"\n");
    }
}

// What ends both lines of totals: the days answered and their sum in ten-thousandths of an inch.
fn put_totals(pen: &mut Pen<'_>, total: Total)
    requires { Fits pen.old (totals total.days total.sum) }
    ensures { Wrote pen.old (totals total.days total.sum) pen.new }
{
    pen.put_number_field(0, u64::from(total.days));
    pen.put_inches_field(total.sum);
    pen.put_bytes(b"\n");
}

// The line of a month's totals.
#[derive(Clone, Copy)]
pub struct MonthLine {
    pub code: Code,
    pub year: u16,
    pub month: u16,
    pub total: Total,
}

impl Line for MonthLine {
    ghost text = { λ line. month_line line.code line.year line.month line.total.days line.total.sum };

    fn put(self, pen: &mut Pen<'_>) {
        pen.put_code(self.code);
        pen.put_number_field(4, u64::from(self.year));
        pen.put_number_field(2, u64::from(self.month));
        put_totals(pen, self.total);
    }
}

// The line of a season's totals.
#[derive(Clone, Copy)]
pub struct SeasonLine {
    pub code: Code,
    pub total: Total,
}

impl Line for SeasonLine {
    ghost text = { λ line. season_line line.code line.total.days line.total.sum };

    fn put(self, pen: &mut Pen<'_>) {
        pen.put_code(self.code);
        pen.put_bytes(b" ALL");
        put_totals(pen, self.total);
    }
}

// The line of a refused log, with the refusal's number as it stands there: `refused_line` is defined of every number.
#[derive(Clone, Copy)]
pub struct RefusedLine {
    pub number: u8,
    pub value: usize,
}

impl Line for RefusedLine {
    ghost text = { λ line. refused_line line.number line.value };

    fn put(self, pen: &mut Pen<'_>) {
        pen.put_bytes(b"REFUSED");
        pen.put_number_field(0, u64::from(self.number));
        // By `as`, since `u64` has no `From<usize>`.
        pen.put_number_field(0, self.value as u64);
        pen.put_bytes(b"\n");
    }
}
