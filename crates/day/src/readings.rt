// The kinds of readings, and a station's fields that have a range, each with its own.
ghost use Rattle.std.specs.Prelude.{◌≡◌, ◌&&◌, ℤ, pos, negsuc, refl};
ghost use Rattle.std.specs.Int.Signed.{le_z};
ghost use Rattle.numbers.specs.Ranges.{Range, in_range};
ghost use Rattle.sheet.specs.Limits as limits;

// A kind of number that has a range, ends included: its two ends as associated constants, and one in-range function, as document 01 asks. `number`
// widens, since readings have a sign and a station's fields have none.
pub trait Ranged: Copy {
    ghost range: { Range };

    ghost number: { Self → ℤ };

    ghost LOW: { ℤ };

    ghost HIGH: { ℤ };

    const LOW: i32;

    const HIGH: i32;

    fn number(self) -> i32
        ensures { result ≡ number self };

    final fn in_range(self) -> bool
        ensures { result ≡ in_range range (number self) }
    {
        let x = self.number();
        Self::LOW <= x && x <= Self::HIGH
    }

    // The two ends are those of the range.
    ghost ends: { (z : ℤ) → in_range range z ≡ (le_z LOW z && le_z z HIGH) };
}

// A temperature in tenths of a degree Fahrenheit.
#[derive(Clone, Copy)]
pub struct Temperature(pub i16);

impl Ranged for Temperature {
    ghost range = { limits.temperature };

    ghost number = { λ x. x.0 };

    ghost LOW = { negsuc 93 };

    ghost HIGH = { pos 1_291 };

    ghost ends = { λ z. refl };

    const LOW: i32 = -94;

    const HIGH: i32 = 1_291;

    fn number(self) -> i32 {
        i32::from(self.0)
    }
}

// Solar radiation in tenths of a cal/cm²/d.
#[derive(Clone, Copy)]
pub struct Radiation(pub i16);

impl Ranged for Radiation {
    ghost range = { limits.radiation };

    ghost number = { λ x. x.0 };

    ghost LOW = { pos 0 };

    ghost HIGH = { pos 12_000 };

    ghost ends = { λ z. refl };

    const LOW: i32 = 0;

    const HIGH: i32 = 12_000;

    fn number(self) -> i32 {
        i32::from(self.0)
    }
}

// A wind run in tenths of a mile.
#[derive(Clone, Copy)]
pub struct Wind(pub i16);

impl Ranged for Wind {
    ghost range = { limits.wind };

    ghost number = { λ x. x.0 };

    ghost LOW = { pos 0 };

    ghost HIGH = { pos 9_999 };

    ghost ends = { λ z. refl };

    const LOW: i32 = 0;

    const HIGH: i32 = 9_999;

    fn number(self) -> i32 {
        i32::from(self.0)
    }
}

// A station's clear-day minimum, in cal/cm²/d.
#[derive(Clone, Copy)]
pub struct ClearMinimum(pub u16);

impl Ranged for ClearMinimum {
    ghost range = { limits.clear_minimum };

    ghost number = { λ x. pos x.0 };

    ghost LOW = { pos 50 };

    ghost HIGH = { pos 200 };

    ghost ends = { λ z. refl };

    const LOW: i32 = 50;

    const HIGH: i32 = 200;

    fn number(self) -> i32 {
        i32::from(self.0)
    }
}

// A station's elevation, in metres.
#[derive(Clone, Copy)]
pub struct Elevation(pub u16);

impl Ranged for Elevation {
    ghost range = { limits.elevation };

    ghost number = { λ x. pos x.0 };

    ghost LOW = { pos 0 };

    ghost HIGH = { pos 3_000 };

    ghost ends = { λ z. refl };

    const LOW: i32 = 0;

    const HIGH: i32 = 3_000;

    fn number(self) -> i32 {
        i32::from(self.0)
    }
}

// A station's limit of the wind run, in tenths of a mile.
#[derive(Clone, Copy)]
pub struct WindLimit(pub u16);

impl WindLimit {
    // The routine's, and the highest.
    pub const ROUTINE: u16 = 1_500;
}

impl Ranged for WindLimit {
    ghost range = { limits.wind_limit };

    ghost number = { λ x. pos x.0 };

    ghost LOW = { pos 1_000 };

    ghost HIGH = { pos 1_500 };

    ghost ends = { λ z. refl };

    const LOW: i32 = 1_000;

    // By `as`: a constant's value calls no `From`.
    const HIGH: i32 = WindLimit::ROUTINE as i32;

    fn number(self) -> i32 {
        i32::from(self.0)
    }
}
