// A day without a dew point: what it is judged by, and the mark on its figure.
ghost use Rattle.std.specs.Prelude.{◌≡◌};
ghost use Rattle.day.specs.Judgement.{lacks_dew_point, as_judged, with_mark};

use crate::rules::{MISSING, other_missing};
use crate::{Day, Figure};

// Whether the dew point is the only reading missing.
#[tactic(auto, unfolding(crate::specs::Judgement::lacks_dew_point))]
fn lacks_dew_point(day: Day) -> bool
    ensures { result ≡ lacks_dew_point day }
{
    day.dewpoint == MISSING && !other_missing(day)
}

// The dew point, or the minimum in its place.
#[tactic(auto, unfolding(crate::specs::Judgement::as_judged))]
fn dew_point(day: Day) -> i16
    ensures { result ≡ (as_judged day).dewpoint }
{
    if lacks_dew_point(day) {
        return day.minimum;
    }
    day.dewpoint
}

// The day as it is judged.
#[tactic(auto, unfolding(crate::specs::Judgement::as_judged))]
pub fn as_judged(day: Day) -> Day
    ensures { result ≡ as_judged day }
{
    Day {
        dewpoint: dew_point(day),
        ..day
    }
}

// The figure of an answered day, with its mark if it has one.
#[tactic(auto, unfolding(crate::specs::Judgement::with_mark))]
pub fn with_mark(day: Day, n: u32) -> Figure
    ensures { result ≡ with_mark day n }
{
    if lacks_dew_point(day) {
        return Figure::Estimated(n);
    }
    Figure::Measured(n)
}
