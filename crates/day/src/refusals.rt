// What refuses a station or a day, by document 01's numbers and in its order, before any figure is worked.
ghost use Rattle.std.specs.Prelude.{◌≡◌, not, ◌≤◌};
ghost use Rattle.numbers.specs.Ranges.{InRange};
ghost use Rattle.sheet.specs.Quantities as quantities;
ghost use Rattle.sheet.specs.StepSheet as sheet;
ghost use Rattle.day.specs.Calendar.{is_date};
ghost use Rattle.day.specs.Rules.{bad_station};
ghost use Rattle.day.specs.Judgement.{out_of_range, clear_of, standing_of};

use crate::calendar::is_date;
use crate::inputs::clear_of;
use crate::readings::{ClearMinimum, Elevation, Ranged, WindLimit};
use crate::rules::{mean_out_of_range, out_of_order, some_missing, some_out_of_range};
use crate::{Day, Earlier, Refusal, Station};

// Refusal 3: a letter of the code that is no capital, or the clear-day minimum, the elevation or the wind limit out of range.
pub fn bad_station(station: Station) -> bool
    ensures { result ≡ bad_station station }
{
    station.code.is_bad()
        || !ClearMinimum(station.minimum).in_range()
        || !Elevation(station.elevation).in_range()
        || !WindLimit(station.limit).in_range()
}

// Refusal 8, of the six readings and of the earlier means that are present.
fn out_of_range(day: Day, earlier: Earlier) -> bool
    ensures { result ≡ out_of_range day earlier }
{
    some_out_of_range(day)
        || mean_out_of_range(earlier.one)
        || mean_out_of_range(earlier.two)
        || mean_out_of_range(earlier.three)
}

// Refusal 10.
fn above_clear(station: Station, day: Day) -> bool
    requires date_and_minimum { (1 ≤ day.d) × (day.d ≤ 366) × (50 ≤ station.minimum) × (station.minimum ≤ 200) }
    requires radiation_in_range { InRange quantities.radiation day.radiation }
    ensures { result ≡ sheet.above_twice_clear day.radiation (clear_of station day) }
{
    sheet::clear::above_twice_clear(i64::from(day.radiation), clear_of(station, day))
}

// The first of 3, 6, 7, 8, 9, 10 that holds, or that none does.
#[tactic(auto, unfolding(crate::specs::Judgement::standing_of, crate::specs::Judgement::holds))]
pub fn standing(station: Station, day: Day, earlier: Earlier) -> Result<(), Refusal>
    ensures { result ≡ standing_of station day earlier }
{
    if bad_station(station) {
        return Err(Refusal::StationField);
    }
    if !is_date(day.year, day.d) {
        return Err(Refusal::BadDate);
    }
    if some_missing(day) {
        return Err(Refusal::Missing);
    }
    if out_of_range(day, earlier) {
        return Err(Refusal::OutOfRange);
    }
    if out_of_order(day) {
        return Err(Refusal::OutOfOrder);
    }
    if above_clear(station, day) {
        return Err(Refusal::AboveClear);
    }
    Ok(())
}
