// The Gregorian calendar of the years 1950 to 2099.
ghost use Rattle.std.specs.Prelude.{◌≡◌};
ghost use Rattle.day.specs.Calendar.{year_length, is_date};

// The years that the office takes.
pub const FIRST_YEAR: u16 = 1950;

pub const LAST_YEAR: u16 = 2099;

// The number of days of a year: 366 where 4 divides it, but of the years that 100 divides only those that 400 divides.
#[tactic(auto, unfolding(crate::specs::Calendar::year_length))]
pub fn year_length(year: u16) -> u16
    ensures { result ≡ year_length year }
{
    if year % 4 == 0 && (year % 100 != 0 || year % 400 == 0) {
        366
    } else {
        365
    }
}

// Whether the calendar has day d of the year. A date is two numbers, as a record has them: `day_number`, `month_of` and `in_season` are defined of two.
#[tactic(auto, unfolding(crate::specs::Calendar::is_date))]
pub fn is_date(year: u16, d: u16) -> bool
    ensures { result ≡ is_date year d }
{
    FIRST_YEAR <= year && year <= LAST_YEAR && 1 <= d && d <= year_length(year)
}
