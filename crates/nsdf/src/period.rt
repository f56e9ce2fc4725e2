// The pitch of a take around a sample, from the peaks of its periodicity.
ghost use Rattle.std.specs.Prelude.{◌≡◌, ◌<◌};
ghost use Rattle.lists.specs.By.{better};
ghost use Rattle.nsdf.specs.Period.{measured, is_peak, above, best_peak, is_near, first_peak, clamped, shift, refined, estimated, period_hz};

use crate::sums::{Squares, Window};
use std::array;

// Samples on either side of the centre of the window.
const HALF_WINDOW: usize = 256;
// The lags that are measured start with this one. There are 200, from one below the period of 500 Hz to one above that of 70 Hz,
// the range of a voice: a peak needs both neighbours.
const FIRST_LAG: usize = 31;
// A voiced frame repeats at least this well.
const MIN_PERIODICITY: f64 = 0.6;
// A voice repeats at each multiple of its period, so the shortest lag that repeats nearly as well as the best is the period.
const NEAR_BEST: f64 = 0.9;
// Samples a second.
const SAMPLE_RATE: f64 = 16000.0;

// The larger of two numbers, the first where they are equal or one is a NaN. By hand, as `max` answers otherwise there.
fn larger(x: f64, y: f64) -> f64
    ensures { result ≡ better above x y }
{
    if x < y { y } else { x }
}

// x brought to -0.5 or 0.5 where it lies outside. A name of ours over one call: the definition of this name is what contracts speak of.
fn clamped(x: f64) -> f64
    ensures { result ≡ clamped x }
{
    x.clamp(-0.5, 0.5)
}

// How far the top of the parabola through three neighbouring values lies from the middle one: 0 where it has no top.
fn shift(a: f64, b: f64, c: f64) -> f64
    ensures { result ≡ shift a b c }
{
    let bend = a - 2.0 * b + c;
    if bend < 0.0 {
        return 0.5 * (a - c) / bend;
    }
    0.0
}

// The periodicity of a window at lags 31 to 230, that of lag 31 + k at k; 0 at those that leave no pair.
fn measure(window: Window<'_>) -> [f64; 200]
    ensures { result ≡ measured window.entry.samples.now }
{
    let sums = window.running_sums();
    let squares = Squares {
        window,
        sums: &sums,
    };
    array::from_fn(
        |k|
            requires { k < 200 }
        { squares.nsdf(FIRST_LAG + k) },
    )
}

// Such values, to look for a peak among. They are lent, as running sums are: a list that is moved is copied.
#[derive(Clone, Copy)]
struct Measured<'a> {
    at: &'a [f64; 200],
}

impl Measured<'_> {
    // Higher than on its left, and at least as high as on its right. That k has a neighbour on either side is a `requires` here and
    // below and no type: k is a number of a loop, of `find`, and of what `find` gives.
    fn is_peak(self, k: usize) -> bool
        requires { (0 < k) × (k < 199) }
        ensures { result ≡ is_peak self.entry.at.now k }
    {
        self.at[k] > self.at[k - 1] && self.at[k] >= self.at[k + 1]
    }

    // The value of the highest peak: minus infinity where there is none. No `Option`: the search begins with it, and like any value
    // below 0.6 it gives no pitch, so a `None` would be a second way to say the same.
    fn best_peak(self) -> f64
        ensures { result ≡ best_peak self.entry.at.now }
    {
        let mut best = f64::NEG_INFINITY;
        for k in 1..199 {
            if self.is_peak(k) {
                best = larger(best, self.at[k]);
            }
        }
        best
    }

    // A peak that is not below `least`.
    fn is_near(self, least: f64, k: usize) -> bool
        requires { (0 < k) × (k < 199) }
        ensures { result ≡ is_near self.entry.at.now least k }
    {
        self.is_peak(k) && self.at[k] >= least
    }

    // The first such peak: the shortest lag.
    fn first_peak(self, least: f64) -> Option<usize>
        ensures { result ≡ first_peak self.entry.at.now least }
    {
        (1..199).find(|k| self.is_near(least, *k))
    }

    // The lag of the peak at k, moved by at most half a sample to the top of the parabola.
    fn refined(self, k: usize) -> f64
        requires { (0 < k) × (k < 199) }
        ensures { result ≡ refined self.entry.at.now k }
    {
        let by = shift(self.at[k - 1], self.at[k], self.at[k + 1]);
        (FIRST_LAG + k) as f64 + clamped(by)
    }

    // The pitch of the first peak that reaches 0.9 of the best, rounded. None where the best is below 0.6 or there is no peak.
    fn estimated(self) -> Option<f64>
        ensures { result ≡ estimated self.entry.at.now }
    {
        let best = self.best_peak();
        if best < MIN_PERIODICITY {
            return None;
        }
        let k = self.first_peak(NEAR_BEST * best)?;
        Some(SAMPLE_RATE / self.refined(k))
    }
}

// The pitch of a take around a sample, if it repeats well enough there, from the 512 samples centred on it, as far as the
// take goes.
// None where the take has too few of them for a lag to be measured.
pub fn period_hz(samples: &[i16], centre: usize) -> Option<f64>
    ensures { result ≡ period_hz samples.now centre }
{
    let n = samples.len();
    let start = centre.saturating_sub(HALF_WINDOW).min(n);
    let end = centre.saturating_add(HALF_WINDOW).min(n);
    let window = Window {
        samples: &samples[start..end],
    };
    let at = measure(window);
    Measured { at: &at }.estimated()
}
