// One station day judged alone: its figure, or the first refusal that holds of it. Nothing is asked of the caller.
#![tactic(auto)]

ghost use Rattle.std.specs.Prelude.{◌≡◌};
ghost use Rattle.day.specs.Rules.{any_of, code_faults, number_of, RefusalOf};

pub mod calendar;
pub mod dew_point;
mod inputs;
pub mod judge;
pub mod readings;
pub mod refusals;
pub mod rules;

use rules::not_capital;

// A station's four capitals: four fields, as the C interface hands them in, and as `code_faults`, `code_text` and `lettered` are defined of four.
#[derive(Clone, Copy)]
pub struct Code {
    pub first: u8,
    pub second: u8,
    pub third: u8,
    pub fourth: u8,
}

// A station. c1 to c5 are in units of 1, 0.001, 0.0001, 0.000001 and 0.000000001 cal/cm²/d, the clear-day minimum in cal/cm²/d, the elevation in metres,
// the limit of the wind run in tenths of a mile.
#[derive(Clone, Copy)]
pub struct Station {
    pub code: Code,
    pub c1: i16,
    pub c2: i16,
    pub c3: i16,
    pub c4: i16,
    pub c5: i16,
    pub minimum: u16,
    pub elevation: u16,
    pub limit: u16,
}

// A day: the year, the day of the year, and six readings in tenths, each possibly missing.
#[derive(Clone, Copy)]
pub struct Day {
    pub year: u16,
    pub d: u16,
    pub maximum: i16,
    pub minimum: i16,
    pub mean: i16,
    pub dewpoint: i16,
    pub radiation: i16,
    pub wind: i16,
}

// The means of the three calendar days before, in tenths, of those that have one: three fields, as the C interface hands them in, and as `means_of` and
// `shifted` are defined of three.
#[derive(Clone, Copy, Default)]
pub struct Earlier {
    pub one: Option<i16>,
    pub two: Option<i16>,
    pub three: Option<i16>,
}

// Why a day gets no figure; specs/Rules.antt gives each its number. 11 was a refusal once, and is given to nothing else.
#[derive(Clone, Copy, Debug, PartialEq, Eq)]
pub enum Refusal {
    StationField = 3,
    BadDate = 6,
    Missing = 7,
    OutOfRange = 8,
    OutOfOrder = 9,
    AboveClear = 10,
}

// A number that no refusal has.
#[derive(Clone, Copy, Debug, PartialEq, Eq)]
pub struct UnknownRefusal(pub u32);

// A day's figure in 0.0001 inch: worked from the day's own dew point, or with the mark that the minimum stood for a missing one.
#[derive(Clone, Copy, Debug, PartialEq, Eq)]
pub enum Figure {
    Measured(u32),
    Estimated(u32),
}

// What a day comes to: its figure, or what refuses it.
pub type Verdict = Result<Figure, Refusal>;

impl Code {
    // Whether one of the four is no capital.
    pub fn is_bad(self) -> bool
        ensures { result ≡ any_of (code_faults self.first self.second self.third self.fourth) }
    {
        not_capital(self.first)
            || not_capital(self.second)
            || not_capital(self.third)
            || not_capital(self.fourth)
    }
}

// A refusal's number on an answer.
impl From<Refusal> for u32 {
    ghost from_gives = { λ why number. number ≡ number_of why };

    fn from(why: Refusal) -> u32 {
        why as u32
    }
}

// The refusal that has a number.
impl TryFrom<u32> for Refusal {
    type Error = UnknownRefusal;

    ghost try_from_gives = { RefusalOf };

    fn try_from(number: u32) -> Result<Refusal, UnknownRefusal> {
        match number {
            3 => Ok(Refusal::StationField),
            6 => Ok(Refusal::BadDate),
            7 => Ok(Refusal::Missing),
            8 => Ok(Refusal::OutOfRange),
            9 => Ok(Refusal::OutOfOrder),
            10 => Ok(Refusal::AboveClear),
            _ => Err(UnknownRefusal(number)),
        }
    }
}
