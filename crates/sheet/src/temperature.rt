// What a temperature gives: the vapour pressure e, the slope D and the latent heat M.
ghost use Rattle.std.specs.Prelude.{◌≡◌};
ghost use Rattle.numbers.specs.Ranges.{InRange};
ghost use Rattle.sheet.specs.Quantities as quantities;
ghost use Rattle.sheet.specs.StepSheet as sheet;

// V4, at the temperature f.
pub fn fourth_power(f: i64) -> i64
    requires { InRange quantities.temperature f }
    ensures { (result ≡ sheet.V4 f) × InRange quantities.v4 result }
{
    let u = 41 * f + 67_600;
    let v2 = u * u / 10;
    v2 * v2 / 1_000_000_000
}

// e, at the temperature f.
pub fn vapour_pressure(f: i64) -> i64
    requires { InRange quantities.temperature f }
    ensures { (result ≡ sheet.e f) × InRange quantities.vapour_pressure result }
{
    let v4 = fourth_power(f);
    let v8 = v4 * v4 / 1_000_000_000;
    (v8 - 1_900 * (f + 160) + 1_316_000) * 338_639 / 100_000
}

// D, at the mean m. Its powers begin as V4's do and are written out, since D needs U and V2 as well.
pub fn slope(m: i64) -> i64
    requires { InRange quantities.temperature m }
    ensures { (result ≡ sheet.D m) × InRange quantities.slope result }
{
    let u = 41 * m + 67_600;
    let v2 = u * u / 10;
    let v4 = v2 * v2 / 1_000_000_000;
    let v6 = v4 * v2 / 1_000_000_000;
    let v7 = numbers::quotient(v6 * u, 100_000);
    v7 / 5 - 116_000
}

// M, at the mean m.
pub fn latent_heat(m: i64) -> i64
    requires { InRange quantities.temperature m }
    ensures { (result ≡ sheet.M m) × InRange quantities.latent_heat result }
{
    15_006_000 - 787 * (m - 320)
}
