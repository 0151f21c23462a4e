// The answers to a log as values, and their bytes: written to a lent buffer, and read back from it.
#![tactic(auto)]

ghost use Rattle.std.specs.Prelude.{◌≡◌, length};
ghost use Rattle.answers.specs.Answers.{answer_bytes};

use day::{Code, Verdict};

pub mod kind;
pub mod read_back;
pub mod writing;

// How many bytes an answer has.
pub const STATION_SIZE: usize = 5;

pub const DAY_SIZE: usize = 9;

pub const CROP_SIZE: usize = 9;

// An answer of a log: a station's code; a day's year, `d` and verdict; or a crop's letters and figure.
#[derive(Clone, Copy)]
pub enum Answer {
    Station(Code),
    Day { year: u16, d: u16, verdict: Verdict },
    Crop { code: Code, n: u32 },
}

impl Answer {
    // How many bytes it has.
    pub fn size(self) -> usize
        ensures { result ≡ length (answer_bytes self) }
    {
        match self {
            Answer::Station(_) => STATION_SIZE,
            Answer::Day { .. } => DAY_SIZE,
            Answer::Crop { .. } => CROP_SIZE,
        }
    }
}
