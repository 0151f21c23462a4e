// The figure of a day: the heat and the drying, weighed and rounded.
ghost use Rattle.std.specs.Prelude.{◌≡◌};
ghost use Rattle.numbers.specs.Ranges.{InRange};
ghost use Rattle.sheet.specs.Accepted.{ReadingsInRange, EntriesInRange, EarlierInRange, ClearDayAccepted};
ghost use Rattle.sheet.specs.Parts as parts;
ghost use Rattle.sheet.specs.Quantities as quantities;
ghost use Rattle.sheet.specs.StepSheet as sheet;

use crate::{Earlier, Entries, Readings};

// A.
pub fn amount(w1: i64, w2: i64, h: i64, t: i64) -> i64
    requires { InRange quantities.weight w1 × InRange quantities.weight w2 × InRange quantities.heat h × InRange quantities.drying t }
    ensures { (result ≡ sheet.A w1 w2 h t) × InRange quantities.amount result }
{
    numbers::toward_zero(w1 * h + w2 * t, 1_000_000_000)
}

// The figure of the amount and the latent heat, in 0.0001 inch.
pub fn rounded(a: i64, heat: i64) -> i64
    requires { InRange quantities.amount a × InRange quantities.latent_heat heat }
    ensures { (result ≡ sheet.Figure a heat) × InRange quantities.figure result }
{
    if a <= 0 {
        return 0;
    }
    let whole = 100 * heat;
    numbers::quotient(2 * (23_622 * a) + whole, 2 * whole)
}

// The figure of the heat and the drying, weighed at the mean and the pressure.
pub fn weighed(m: i64, p: i64, h: i64, t: i64) -> i64
    requires { InRange quantities.temperature m × InRange quantities.pressure p × InRange quantities.heat h × InRange quantities.drying t }
    ensures { (result ≡ parts.weighed m p h t) × InRange quantities.figure result }
{
    let heat = crate::temperature::latent_heat(m);
    let g = crate::weights::psychrometric(p, heat);
    let d = crate::temperature::slope(m);
    let w1 = crate::weights::weight(d, g);
    let a = amount(w1, 1_000_000_000 - w1, h, t);
    rounded(a, heat)
}

// H, of a day. Each takes what its line in specs/StepSheet.antt does: `heat` asks for no wind limit, `drying` for no earlier means.
pub fn heat(x: Readings, t: Entries, earlier: Earlier, q: i64) -> i64
    requires { ReadingsInRange x × EntriesInRange t × EarlierInRange earlier × ClearDayAccepted x q }
    ensures { (result ≡ sheet.heat x t earlier q) × InRange quantities.heat result }
{
    let rb = crate::radiation::outgoing(x, t.a1, q);
    let rn = crate::radiation::net_radiation(t.albedo, x.radiation, rb);
    let soil = crate::radiation::soil_heat(x.mean, earlier.k, earlier.z);
    crate::radiation::available(rn, soil)
}

// T, of a day at a station with the wind limit.
pub fn drying(x: Readings, t: Entries, limit: i64) -> i64
    requires { ReadingsInRange x × EntriesInRange t × InRange quantities.wind_limit limit }
    ensures { (result ≡ sheet.drying x t limit) × InRange quantities.drying result }
{
    let ea = crate::temperature::vapour_pressure(x.dewpoint);
    let e_maximum = crate::temperature::vapour_pressure(x.maximum);
    let e_minimum = crate::temperature::vapour_pressure(x.minimum);
    let v = crate::wind::deficit(e_maximum, e_minimum, ea);
    let w = crate::wind::counted_wind(limit, x.wind);
    let wf = crate::wind::wind_factor(t.aw, t.bw, w);
    crate::wind::drying(v, wf)
}

// The figure of a day that is not refused.
pub fn figure(x: Readings, t: Entries, earlier: Earlier, q: i64, limit: i64) -> i64
    requires { ReadingsInRange x × EntriesInRange t × EarlierInRange earlier × ClearDayAccepted x q × InRange quantities.wind_limit limit }
    ensures { (result ≡ sheet.figure x t earlier q limit) × InRange quantities.figure result }
{
    let dry = drying(x, t, limit);
    let h = heat(x, t, earlier, q);
    weighed(x.mean, t.p, h, dry)
}
