// The drying of the air: its deficit of vapour, and the wind that carries it off.
ghost use Rattle.std.specs.Prelude.{◌≡◌};
ghost use Rattle.numbers.specs.Ranges.{InRange};
ghost use Rattle.sheet.specs.Quantities as quantities;
ghost use Rattle.sheet.specs.StepSheet as sheet;

// The wind run that counts, by the station's limit.
pub fn counted_wind(limit: i64, w: i64) -> i64
    requires { InRange quantities.wind_limit limit × InRange quantities.wind w }
    ensures { (result ≡ sheet.counted_wind limit w) × InRange quantities.counted_wind result }
{
    w.min(limit)
}

// Wf, of the two table entries and the wind run that counts.
pub fn wind_factor(aw: i64, bw: i64, w: i64) -> i64
    requires { InRange quantities.aw aw × InRange quantities.bw bw × InRange quantities.counted_wind w }
    ensures { (result ≡ sheet.Wf aw bw w) × InRange quantities.wind_factor result }
{
    aw + numbers::quotient(bw * (16_093 * w), 100_000)
}

// V, of the vapour pressures at the maximum, at the minimum and at the dew point.
pub fn deficit(maximum: i64, minimum: i64, ea: i64) -> i64
    requires { InRange quantities.vapour_pressure maximum × InRange quantities.vapour_pressure minimum × InRange quantities.vapour_pressure ea }
    ensures { (result ≡ sheet.«V» maximum minimum ea) × InRange quantities.deficit result }
{
    numbers::quotient(maximum + minimum, 2) - ea
}

// T.
pub fn drying(v: i64, wf: i64) -> i64
    requires { InRange quantities.deficit v × InRange quantities.wind_factor wf }
    ensures { (result ≡ sheet.T v wf) × InRange quantities.drying result }
{
    let hundredths = numbers::toward_zero(v, 100);
    let carried = numbers::toward_zero(hundredths * wf, 1_000_000_000);
    numbers::toward_zero(carried * 643, 100)
}
