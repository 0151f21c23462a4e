// The totals while a block's answers are gone through in date order: the month that is open, and the season.
ghost use Rattle.std.specs.Prelude.{◌≡◌, ℕ, ◌+◌};
ghost use Rattle.totals.specs.Tally.{begun, begins, so_far, after, days_limit, AtMost, Within};
ghost use Rattle.totals.specs.Totals.{counted_of, one, plus, is_month};

use crate::months::month_of;
use answers::Answer;
use day::Figure;
use day::calendar::FIRST_YEAR;

// Days answered and the sum of their figures, in 0.0001 inch.
#[derive(Clone, Copy, Default)]
pub struct Total {
    pub days: u32,
    pub sum: u64,
}

// A day that counts: its month of its year, and its figure.
#[derive(Clone, Copy)]
pub struct Counted {
    pub year: u16,
    pub month: u16,
    pub n: u32,
}

// The month that is open with its total so far, and the season's.
#[derive(Clone, Copy)]
pub struct Tally {
    pub year: u16,
    pub month: u16,
    pub total: Total,
    pub season: Total,
}

// What an answer adds. Days of kinds 3 and 9 count. It is inlined, as what reads the answer is: where it is called, the answer goes through memory.
#[inline(always)]
pub fn counted_of(a: Answer) -> Option<Counted>
    ensures { result ≡ counted_of a }
{
    match a {
        Answer::Station(_) => None,
        Answer::Day {
            year,
            d,
            verdict: Ok(Figure::Measured(n) | Figure::Estimated(n)),
        } => Some(Counted {
            year,
            month: month_of(year, d),
            n,
        }),
        Answer::Day {
            verdict: Err(_),
            ..
        } => None,
        Answer::Crop { .. } => None,
    }
}

impl Total {
    // The total with a day more.
    fn with_day(self, n: u32) -> Total
        requires { AtMost days_limit self }
        ensures value { result ≡ plus self (one n) }
        ensures by_index { (days : ℕ) → AtMost days self → AtMost (days + 1) result }
    {
        Total {
            days: self.days + 1,
            sum: self.sum + u64::from(n),
        }
    }
}

impl Tally {
    // Before the first answer: the first month of all is open with no day, as in `begun`, and a month without a day has no line.
    pub fn start() -> Tally
        ensures { result ≡ begun }
    {
        Tally {
            year: FIRST_YEAR,
            month: 1,
            total: Total::default(),
            season: Total::default(),
        }
    }

    // Whether a month is the one that is open.
    fn is_open(self, year: u16, month: u16) -> bool
        ensures { result ≡ is_month self.year self.month year month }
    {
        year == self.year && month == self.month
    }

    // Whether the month that is open ends before what is counted.
    pub fn ends_month(self, counted: Option<Counted>) -> bool
        ensures { result ≡ begins self counted }
    {
        counted.is_some_and(|c| !self.is_open(c.year, c.month))
    }

    // The total so far of a month that is open, and of another nothing.
    fn so_far(self, year: u16, month: u16) -> Total
        ensures { result ≡ so_far self year month }
    {
        if self.is_open(year, month) {
            return self.total;
        }
        Total::default()
    }

    // The totals with what is counted.
    pub fn tallied(self, counted: Option<Counted>) -> Tally
        requires { Within days_limit self }
        ensures value { result ≡ after self counted }
        ensures by_index { (days : ℕ) → Within days self → Within (days + 1) result }
    {
        let Some(Counted { year, month, n }) = counted else {
            return self;
        };
        Tally {
            year,
            month,
            total: self.so_far(year, month).with_day(n),
            season: self.season.with_day(n),
        }
    }
}
