// The clear-day radiation Q of a station, and whether a reading is above twice of it.
ghost use Rattle.std.specs.Prelude.{◌≡◌};
ghost use Rattle.numbers.specs.Ranges.{InRange};
ghost use Rattle.sheet.specs.Accepted.{ConstantsInRange};
ghost use Rattle.sheet.specs.Quantities as quantities;
ghost use Rattle.sheet.specs.StepSheet as sheet;

use crate::Constants;

// The sum of the station's clear-day constants at the day of the year, d.
pub fn clear_sum(constants: Constants, d: i64) -> i64
    requires { ConstantsInRange constants × InRange quantities.day_of_year d }
    ensures { (result ≡ sheet.clear_sum constants.c1 constants.c2 constants.c3 constants.c4 constants.c5 d) × InRange quantities.clear_sum result }
{
    let Constants { c1, c2, c3, c4, c5 } = constants;
    1_000_000_000 * c1
        + 1_000_000 * c2 * d
        + 100_000 * c3 * d * d
        + 1_000 * c4 * d * d * d
        + c5 * d * d * d * d
}

// Q: the sum, or the station's minimum where the sum is below it.
pub fn clear_day(minimum: i64, sum: i64) -> i64
    requires { InRange quantities.clear_minimum minimum × InRange quantities.clear_sum sum }
    ensures { (result ≡ sheet.Q minimum sum) × InRange quantities.clear_day result }
{
    (1_000_000_000 * minimum).max(sum)
}

// Refusal 10.
pub fn above_twice_clear(s: i64, q: i64) -> bool
    requires { InRange quantities.radiation s × InRange quantities.clear_day q }
    ensures { result ≡ sheet.above_twice_clear s q }
{
    100_000_000 * s > 2 * q
}
