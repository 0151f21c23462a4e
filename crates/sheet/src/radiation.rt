// The heat that is there to use: the radiation that comes in, what goes out, and what the soil takes.
ghost use Rattle.std.specs.Prelude.{false, ◌≡◌};
ghost use Rattle.numbers.specs.Ranges.{InRange};
ghost use Rattle.sheet.specs.Accepted.{ClearDayAccepted};
ghost use Rattle.sheet.specs.Parts as parts;
ghost use Rattle.sheet.specs.Quantities as quantities;
ghost use Rattle.sheet.specs.StepSheet as sheet;

use crate::Readings;

// ρ, of the radiation and the clear-day radiation.
pub fn ratio(s: i64, q: i64) -> i64
    requires { InRange quantities.radiation s × InRange quantities.clear_day q × (sheet.above_twice_clear s q ≡ false) }
    ensures { (result ≡ sheet.ρ s q) × InRange quantities.ratio result }
{
    numbers::quotient(100_000_000_000_000 * s, q / 1_000)
}

// K: the 1,017 pair plus a zero-or-one times the differences to the 1,126 pair (02, W3). The zero-or-one is of the exact numbers and not of the
// ratio, whose fraction is dropped; the differences are added before the one division, because "down" of a sum is not the sum of two "down".
pub fn cloud_factor(s: i64, q: i64) -> i64
    requires { InRange quantities.radiation s × InRange quantities.clear_day q × (sheet.above_twice_clear s q ≡ false) }
    ensures { (result ≡ sheet.K s q) × InRange quantities.cloud_factor result }
{
    let rho = ratio(s, q);
    let bright = i64::from(1_000_000_000 * s > 7 * q);
    numbers::quotient((1_017 + 109 * bright) * rho, 1_000) - (60_000_000 + 10_000_000 * bright)
}

// B, of the maximum and the minimum.
pub fn emission(maximum: i64, minimum: i64) -> i64
    requires { InRange quantities.temperature maximum × InRange quantities.temperature minimum }
    ensures { (result ≡ sheet.B maximum minimum) × InRange quantities.emission result }
{
    let high = 50 * (maximum - 320) + 245_844;
    let low = 50 * (minimum - 320) + 245_844;
    let high2 = high * high / 100;
    let low2 = low * low / 100;
    4_903 * ((high2 * high2 + low2 * low2) / 1_000_000) / 13_122_000
}

// r, at the dew point f. The first guess is the root of the main term of e, 3.38639·y⁸: it is near, and saves steps.
// By `as`, since no `From` goes between signed and unsigned: neither is below zero.
pub fn root(f: i64) -> i64
    requires { InRange quantities.temperature f }
    ensures { (result ≡ sheet.r (sheet.e f)) × InRange quantities.root result }
{
    let ea = crate::temperature::vapour_pressure(f);
    let guess = 184 * crate::temperature::fourth_power(f) / 1_000;
    numbers::whole_root((10_000_000 * ea) as u64, guess as u64) as i64
}

// The emittance, which may be negative.
pub fn emittance(a1: i64, r: i64) -> i64
    requires { InRange quantities.a1 a1 × InRange quantities.root r }
    ensures { (result ≡ sheet.emittance a1 r) × InRange quantities.emittance result }
{
    a1 - 139 * r / 100
}

// Rb.
pub fn back_radiation(emittance: i64, b: i64, k: i64) -> i64
    requires { InRange quantities.emittance emittance × InRange quantities.emission b × InRange quantities.cloud_factor k }
    ensures { (result ≡ sheet.Rb emittance b k) × InRange quantities.back_radiation result }
{
    let sent = numbers::toward_zero(emittance * b, 1_000_000_000);
    numbers::toward_zero(sent * k, 1_000_000_000)
}

// Rn.
pub fn net_radiation(albedo: i64, s: i64, rb: i64) -> i64
    requires { InRange quantities.albedo albedo × InRange quantities.radiation s × InRange quantities.back_radiation rb }
    ensures { (result ≡ sheet.Rn albedo s rb) × InRange quantities.net_radiation result }
{
    numbers::quotient((1_000_000_000 - albedo) * (41_868 * s), 1_000_000_000) - rb
}

// The soil heat, of the mean m and the earlier means: how many, k, and their sum, z.
pub fn soil_heat(m: i64, k: i64, z: i64) -> i64
    requires { InRange quantities.temperature m × InRange quantities.earlier_count k × InRange quantities.earlier_sum z }
    ensures { (result ≡ sheet.soil_heat m k z) × InRange quantities.soil_heat result }
{
    if k == 0 {
        return 0;
    }
    numbers::toward_zero(1_885_000 * (k * m - z), 9 * k)
}

// H.
pub fn available(rn: i64, soil: i64) -> i64
    requires { InRange quantities.net_radiation rn × InRange quantities.soil_heat soil }
    ensures { (result ≡ sheet.H rn soil) × InRange quantities.heat result }
{
    rn - soil
}

// Rb, of the readings, a1 and the clear-day radiation.
pub fn outgoing(x: Readings, a1: i64, q: i64) -> i64
    requires temperatures_in_range { InRange quantities.temperature x.maximum × InRange quantities.temperature x.minimum × InRange quantities.temperature x.dewpoint }
    requires a1_in_range { InRange quantities.a1 a1 }
    requires radiation_accepted { InRange quantities.radiation x.radiation × ClearDayAccepted x q }
    ensures { (result ≡ parts.outgoing x.maximum x.minimum x.dewpoint a1 x.radiation q) × InRange quantities.back_radiation result }
{
    let r = root(x.dewpoint);
    let share = emittance(a1, r);
    let b = emission(x.maximum, x.minimum);
    let k = cloud_factor(x.radiation, q);
    back_radiation(share, b, k)
}
