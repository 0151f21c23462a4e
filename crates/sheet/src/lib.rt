// The step sheet in whole numbers: what one station day's readings, table entries and earlier means come to. Each function is a line of the
// document's sheet, in i64; its contract is that line and the range of its result. The lines in specs/StepSheet.antt are functions of plain whole
// numbers, and each of their quantities has a range of its own: so each range is a clause (`InRange`), and not the invariant of a type.
#![tactic(auto)]

pub mod clear;
pub mod figure;
pub mod radiation;
pub mod temperature;
pub mod weights;
pub mod wind;

// A day's readings, in tenths of a degree Fahrenheit, of a cal/cm²/d and of a mile. `readings_of` in day/specs/Judgement.antt makes them of a refused
// day too, so their ranges are no invariant of them.
#[derive(Clone, Copy)]
pub struct Readings {
    pub maximum: i64,
    pub minimum: i64,
    pub mean: i64,
    pub dewpoint: i64,
    pub radiation: i64,
    pub wind: i64,
}

// A station's constants of the clear-day radiation, in the units of its record.
#[derive(Clone, Copy)]
pub struct Constants {
    pub c1: i64,
    pub c2: i64,
    pub c3: i64,
    pub c4: i64,
    pub c5: i64,
}

// The entries of the constant tables at the day and at the station's elevation.
#[derive(Clone, Copy)]
pub struct Entries {
    pub albedo: i64,
    pub a1: i64,
    pub aw: i64,
    pub bw: i64,
    pub p: i64,
}

// The earlier means: how many of the last three calendar days have one, k, and their sum, z.
#[derive(Clone, Copy)]
pub struct Earlier {
    pub k: i64,
    pub z: i64,
}
