// What the step sheet is worked from, of a station, a day and the earlier means. What a line asks of a date or a field is asked by the function and
// not kept in a type: a `Day` and a `Station` are any that a record can hold, and `standing` tests them in document 01's order.
ghost use Rattle.std.specs.Prelude.{false, ◌≡◌, ◌≤◌, pos};
ghost use Rattle.numbers.specs.Ranges.{InRange, from◌to◌};
ghost use Rattle.tables.specs.Values.{pressure_at};
ghost use Rattle.sheet.specs.Quantities as quantities;
ghost use Rattle.sheet.specs.Accepted.{EarlierInRange};
ghost use Rattle.day.specs.Rules.{mean_fault};
ghost use Rattle.day.specs.Judgement.{readings_of, entries_at, clear_of, earlier_of};
ghost use Rattle.day.specs.Parts.{count_of, tenths_of};

use crate::{Day, Station};
use sheet::{Constants, Entries, Readings};
use tables::DayTable;

// The readings as the sheet takes them: a function and no `From`, which would be the same list of fields, as it is defined (`readings_of`).
#[tactic(auto, unfolding(crate::specs::Judgement::readings_of))]
pub fn readings_of(day: Day) -> Readings
    ensures { result ≡ readings_of day }
{
    Readings {
        maximum: i64::from(day.maximum),
        minimum: i64::from(day.minimum),
        mean: i64::from(day.mean),
        dewpoint: i64::from(day.dewpoint),
        radiation: i64::from(day.radiation),
        wind: i64::from(day.wind),
    }
}

// The tables' entries at the day d and at the elevation.
pub fn entries_at(d: u16, elevation: u16) -> Entries
    requires { (1 ≤ d) × (d ≤ 366) × (elevation ≤ 3000) }
    ensures { result ≡ entries_at d elevation }
{
    let day = usize::from(d);
    Entries {
        albedo: i64::from(DayTable::Albedo.entry(day)),
        a1: i64::from(DayTable::A1.entry(day)),
        aw: i64::from(DayTable::Aw.entry(day)),
        bw: i64::from(DayTable::Bw.entry(day)),
        p: i64::from(tables::pressure(usize::from(elevation))),
    }
}

// The clear-day radiation Q. The constants are made here and by no `From`, which would be the same list of fields.
pub fn clear_of(station: Station, day: Day) -> i64
    requires { (1 ≤ day.d) × (day.d ≤ 366) × (50 ≤ station.minimum) × (station.minimum ≤ 200) }
    ensures { (result ≡ clear_of station day) × InRange quantities.clear_day result }
{
    let constants = Constants {
        c1: i64::from(station.c1),
        c2: i64::from(station.c2),
        c3: i64::from(station.c3),
        c4: i64::from(station.c4),
        c5: i64::from(station.c5),
    };
    let sum = sheet::clear::clear_sum(constants, i64::from(day.d));
    sheet::clear::clear_day(i64::from(station.minimum), sum)
}

// 1 for a mean that is present.
fn count_of(mean: Option<i16>) -> i64
    ensures { (result ≡ count_of mean) × InRange (from 0 to 1) result }
{
    i64::from(mean.is_some())
}

// The mean, or 0 for none.
fn tenths_of(mean: Option<i16>) -> i64
    requires { mean_fault mean ≡ false }
    ensures { (result ≡ tenths_of mean) × InRange quantities.temperature result }
{
    i64::from(mean.unwrap_or(0))
}

// How many means are present, and their sum.
pub fn earlier_of(earlier: crate::Earlier) -> sheet::Earlier
    requires { (mean_fault earlier.one ≡ false) × (mean_fault earlier.two ≡ false) × (mean_fault earlier.three ≡ false) }
    ensures { (result ≡ earlier_of earlier) × EarlierInRange result }
{
    sheet::Earlier {
        k: count_of(earlier.one) + (count_of(earlier.two) + count_of(earlier.three)),
        z: tenths_of(earlier.one) + (tenths_of(earlier.two) + tenths_of(earlier.three)),
    }
}
