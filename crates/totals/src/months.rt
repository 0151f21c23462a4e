// The months of the calendar, from a table of thirteen day offsets.
ghost use Rattle.std.specs.Prelude.{◌≡◌, ◌<◌};
ghost use Rattle.totals.specs.Months.{days_by, month_of};

use day::calendar::year_length;

// The days before each month in a year without a leap day, and behind them the days of that year.
const DAYS_BEFORE: [u16; 13] = [0, 31, 59, 90, 120, 151, 181, 212, 243, 273, 304, 334, 365];

// The days of the year's first i months: one more from March on in leap years.
fn days_by(year: u16, i: u16) -> u16
    requires { i < 13 }
    ensures { result ≡ days_by year i }
{
    let days = DAYS_BEFORE[usize::from(i)];
    if i < 2 {
        return days;
    }
    days + (year_length(year) - 365)
}

// The month of day d of the year, 1 for January: the least number of months that have d days or more. Day 0 gets 0; a day past the year's end gets 13.
pub fn month_of(year: u16, d: u16) -> u16
    ensures { result ≡ month_of year d }
{
    for i in 0..13 {
        if d <= days_by(year, i) {
            return i;
        }
    }
    13
}
