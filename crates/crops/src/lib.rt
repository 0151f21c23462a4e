// A crop of a block, by document 02, W1: what refuses its record, its percentage on a day, and its figure.
#![tactic(auto)]

use day::Code;

pub mod figure;
pub mod percentage;
pub mod rules;

// A crop: its four capitals, its year, the start day S, the full day F, and a percentage for each of the stages 0 to 10.
#[derive(Clone, Copy)]
pub struct Crop {
    pub code: Code,
    pub year: u16,
    pub start: u16,
    pub full: u16,
    pub stages: [u8; 11],
}

// A crop's share of a day's figure: its letters, and its percentage as what stands above L, and L. Their range is a clause (`ShareInRange`) and no ghost
// field, since `share_on` in specs/Share.antt is a share of every crop, a refused one too.
#[derive(Clone, Copy)]
pub struct Share {
    pub code: Code,
    pub above: u32,
    pub length: u32,
}
