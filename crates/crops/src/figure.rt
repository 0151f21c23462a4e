// A crop's figure: the day's reference figure times the percentage over 100, rounded once.
ghost use Rattle.std.specs.Prelude.{◌≡◌, ◌≤◌};
ghost use Rattle.sheet.specs.Quantities.{largest_figure};
ghost use Rattle.crops.specs.Share.{ShareInRange, share_figure};

use crate::Share;

impl Share {
    // To the nearest, halves up, of a reference figure of n ten-thousandths of an inch.
    #[tactic(auto, unfolding(crate::specs::Share::share_figure))]
    pub fn figure(self, n: u32) -> u32
        requires in_range { ShareInRange self }
        requires figure { n ≤ largest_figure }
        ensures { result ≡ share_figure self n }
    {
        let whole = 100 * u64::from(self.length);
        // By `as`, since no `From` narrows: it is proved to fit.
        ((2 * (u64::from(n) * u64::from(self.above)) + whole) / (2 * whole)) as u32
    }
}
