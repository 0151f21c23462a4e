// What refuses a crop's record, and on which days the crop has a figure.
ghost use Rattle.std.specs.Prelude.{◌≡◌};
ghost use Rattle.crops.specs.Crop.{over_any, bad_crop, in_season};

use crate::Crop;
use day::calendar::{FIRST_YEAR, LAST_YEAR};

// The highest percentage.
const HIGHEST: u8 = 200;

// The last day that a crop can be full on.
const LAST_FULL: u16 = 365;

impl Crop {
    // Whether one of the eleven percentages is over 200.
    fn over_any(self) -> bool
        ensures { result ≡ over_any self.stages }
    {
        self.stages.iter().any(|p| HIGHEST < *p)
    }

    // Refusal 13. The years are tested here too, and not by `is_date`: a crop's record has a year and no day with it (`bad_crop`).
    #[tactic(auto, unfolding(crate::specs::Crop::bad_crop))]
    pub fn is_bad(self) -> bool
        ensures { result ≡ bad_crop self }
    {
        self.code.is_bad()
            || self.year < FIRST_YEAR
            || LAST_YEAR < self.year
            || self.over_any()
            || self.start < 1
            || self.full <= self.start
            || LAST_FULL < self.full
    }

    // Whether a date is one of the crop's year, from S to F.
    #[tactic(auto, unfolding(crate::specs::Crop::in_season))]
    pub fn in_season(self, year: u16, d: u16) -> bool
        ensures { result ≡ in_season self year d }
    {
        self.year == year && self.start <= d && d <= self.full
    }
}
