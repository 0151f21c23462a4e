// The rules by which a letter or a day is refused before the sheet is worked. Each function says whether its refusal holds.
ghost use Rattle.std.specs.Prelude.{◌≡◌};
ghost use Rattle.day.specs.Rules.{not_capital, any_of, other_marks, missing_marks, reading_faults, mean_fault, order_faults};

use crate::Day;
use crate::readings::{Radiation, Ranged, Temperature, Wind};

// The mark of a missing reading. A reading is a number with this mark and no `Option`: records and the C interface hand it in so, and what is refused is
// defined of the number (`is_missing`).
pub const MISSING: i16 = -32_768;

// Whether a letter is no capital.
pub fn not_capital(x: u8) -> bool
    ensures { result ≡ not_capital x }
{
    !x.is_ascii_uppercase()
}

// A reading other than the dew point is missing.
pub fn other_missing(day: Day) -> bool
    ensures { result ≡ any_of (other_marks day.maximum day.minimum day.mean day.radiation day.wind) }
{
    day.maximum == MISSING
        || day.minimum == MISSING
        || day.mean == MISSING
        || day.radiation == MISSING
        || day.wind == MISSING
}

// Refusal 7: one of the six readings is missing.
pub fn some_missing(day: Day) -> bool
    ensures { result ≡ any_of (missing_marks day.maximum day.minimum day.mean day.dewpoint day.radiation day.wind) }
{
    day.dewpoint == MISSING || other_missing(day)
}

// Refusal 8: one of the six readings is out of its range.
pub fn some_out_of_range(day: Day) -> bool
    ensures { result ≡ any_of (reading_faults day.maximum day.minimum day.mean day.dewpoint day.radiation day.wind) }
{
    !Temperature(day.maximum).in_range()
        || !Temperature(day.minimum).in_range()
        || !Temperature(day.mean).in_range()
        || !Temperature(day.dewpoint).in_range()
        || !Radiation(day.radiation).in_range()
        || !Wind(day.wind).in_range()
}

// Refusal 8 again: an earlier mean that is present but out of range.
pub fn mean_out_of_range(mean: Option<i16>) -> bool
    ensures { result ≡ mean_fault mean }
{
    mean.is_some_and(|f| !Temperature(f).in_range())
}

// Refusal 9: minimum > mean, mean > maximum, or dew point > maximum.
pub fn out_of_order(day: Day) -> bool
    ensures { result ≡ any_of (order_faults day.maximum day.minimum day.mean day.dewpoint) }
{
    day.mean < day.minimum || day.maximum < day.mean || day.maximum < day.dewpoint
}
