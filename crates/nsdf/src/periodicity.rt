// How well a window of samples repeats at a lag.
ghost use Rattle.std.specs.Prelude.{◌≡◌, ◌*◌, ◌≤◌, ◌^◌, nat_abs, drop};
ghost use Rattle.nsdf.specs.Nsdf.{normalised, power, nsdf};

use crate::sums::{Squares, Window};

// Twice the products over the squares: both are exact as f64, so the quotient is the only rounding. 0 where there is no energy.
fn normalised(cross: i64, power: u64) -> f64
    requires cross_bound { 2 * nat_abs cross ≤ power }
    requires power_bound { power ≤ 2 ^ 53 }
    ensures { result ≡ normalised cross power }
{
    if power == 0 {
        return 0.0;
    }
    (2 * cross) as f64 / power as f64
}

impl Window<'_> {
    // The periodicity at a lag, given the squares of its pairs: 0 where there is no pair or no energy.
    fn with_squares(self, lag: usize, squares: u64) -> f64
        requires squares_known { squares ≡ power self.samples.now (drop lag self.samples.now) }
        requires squares_bound { squares ≤ 2 ^ 40 }
        ensures { result ≡ nsdf self.entry.samples.now lag }
    {
        // Without a pair, or without energy, no product is asked for.
        if squares == 0 {
            return 0.0;
        }
        normalised(self.cross(lag), squares)
    }

    // The periodicity at a lag, each sum made for this lag alone.
    pub fn nsdf(self, lag: usize) -> f64
        ensures { result ≡ nsdf self.entry.samples.now lag }
    {
        self.with_squares(lag, self.power(lag))
    }
}

impl Squares<'_> {
    // The window's periodicity at a lag.
    pub fn nsdf(&self, lag: usize) -> f64
        ensures { result ≡ nsdf self.now.window.samples.now lag }
    {
        self.window.with_squares(lag, self.power(lag))
    }
}
