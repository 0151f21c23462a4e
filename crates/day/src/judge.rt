// A day judged: what refuses it, or else its figure, with the mark where the minimum stands for its dew point. Nothing is asked of the caller.
ghost use Rattle.std.specs.Prelude.{◌≡◌};
ghost use Rattle.day.specs.Bound.{FigureOwed, FigureInRange};
ghost use Rattle.day.specs.Judgement.{Answered, figure_of, judged};

use crate::dew_point::{as_judged, with_mark};
use crate::inputs::{clear_of, earlier_of, entries_at, readings_of};
use crate::refusals::standing;
use crate::{Day, Earlier, Station, Verdict};

// The figure of a day that nothing refuses: the sheet worked. Station, day and earlier means are three parameters, as `judged` and `standing_of` are
// defined of three: a log's day has its station from the block and its means from the days before.
pub fn figure(station: Station, day: Day, earlier: Earlier) -> u32
    requires { Answered station day earlier }
    ensures { result ≡ figure_of station day earlier }
{
    let x = readings_of(day);
    let t = entries_at(day.d, station.elevation);
    let means = earlier_of(earlier);
    let q = clear_of(station, day);
    let limit = i64::from(station.limit);
    // By `as`, since no `From` narrows: it is proved to fit.
    sheet::figure::figure(x, t, means, q, limit) as u32
}

// The verdict of a day.
pub fn judge(station: Station, day: Day, earlier: Earlier) -> Verdict
    ensures value { result ≡ judged station day earlier }
    ensures figure_owed { FigureOwed station day earlier result }
    ensures figure_in_range { FigureInRange result }
{
    let x = as_judged(day);
    standing(station, x, earlier)?;
    Ok(with_mark(day, figure(station, x, earlier)))
}
