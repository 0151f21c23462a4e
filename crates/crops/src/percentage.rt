// A crop's percentage on a day, read linearly between two stages.
ghost use Rattle.std.specs.Prelude.{false, ◌≡◌, ◌+◌, ◌-◌, ◌*◌, ◌≤◌, ◌<◌, get_or};
ghost use Rattle.crops.specs.Crop.{bad_crop};
ghost use Rattle.crops.specs.Share.{share_on, growing_on, ShareInRange, GrowingInRange};

use crate::{Crop, Share};

// p_i × (L - r) + p_(i+1) × r.
fn between(stages: [u8; 11], length: u32, i: usize, r: u32) -> u32
    requires { (length ≤ 364) × (i < 10) × (r < length) }
    ensures { result ≡ get_or stages i 0 * (length - r) + get_or stages (i + 1) 0 * r }
{
    u32::from(stages[i]) * (length - r) + u32::from(stages[i + 1]) * r
}

impl Crop {
    // The crop's share of a day's figure: with (d - S) × 10 = i × L + r, what stands above L. At F stage 10 stands alone, and nothing past it is read.
    fn share_on(self, d: u16) -> Share
        requires not_bad { bad_crop self ≡ false }
        requires from_start { self.start ≤ d }
        requires to_full { d ≤ self.full }
        ensures value { result ≡ share_on self d }
        ensures in_range { ShareInRange result }
    {
        let length = u32::from(self.full - self.start);
        let above = if self.full <= d {
            u32::from(self.stages[10]) * length
        } else {
            let tenfold = u32::from(d - self.start) * 10;
            // By `as`, since `usize` has no `From<u32>`.
            between(
                self.stages,
                length,
                (tenfold / length) as usize,
                tenfold % length,
            )
        };
        Share {
            code: self.code,
            above,
            length,
        }
    }

    // The crop's share on a date of its season, or none.
    #[tactic(auto, using(crate::proofs::Faultless::season), unfolding(crate::specs::Share::growing_on))]
    pub fn growing_on(self, year: u16, d: u16) -> Option<Share>
        requires { bad_crop self ≡ false }
        ensures value { result ≡ growing_on self year d }
        ensures in_range { GrowingInRange result }
    {
        if self.in_season(year, d) {
            Some(self.share_on(d))
        } else {
            None
        }
    }
}
