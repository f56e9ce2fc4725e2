// Peaks of the level that sound like a vowel and have no pitch: syllables whose pitch was lost.
ghost use Rattle.std.specs.Prelude.{◌≡◌, ◌<◌, ◌≤◌, length};
ghost use Rattle.extra.specs.Unpitched.{vowel_like, unpitched, unpitched_peaks};

use arrayvec::ArrayVec;
use nuclei::peaks::{RegionLevel, pitch_near};
use runs::near::{near_end, near_start};
use smooth::extrema::{Extremum, local_extrema};
use smooth::level::mean;

// The share of its energy between 150 Hz and 2 kHz from which a frame is vowel-like: unpitched vowels lie above it,
// fricatives, bursts and noise below.
const SONORANT_SHARE: f32 = 0.5;

// Whether the mean sonority of the frames within 2 of frame at is a vowel's.
fn vowel_like(son: &[f32], at: u32) -> bool
    requires { at < length son.now }
    ensures { result ≡ vowel_like son.now at }
{
    SONORANT_SHARE <= mean(son, near_start(at), near_end(at, son.len()))
}

// Whether a peak of the level at frame at is a syllable whose pitch was lost.
fn unpitched(r: RegionLevel<'_>, pitch: &[f32], son: &[f32], at: u32) -> bool
    requires { length r.level.now ≤ length son.now }
    ensures { result ≡ unpitched r.entry.level.now pitch.now son.now r.entry.bounds at }
{
    r.is_speech(at) && (!pitch_near(pitch, at) && vowel_like(son, at))
}

// Leaves in a list the unpitched peaks of the level in the region, in order, and nothing else.
pub fn unpitched_peaks<const N: usize>(
    r: RegionLevel<'_>,
    pitch: &[f32],
    son: &[f32],
    found: &mut ArrayVec<u32, N>,
)
    requires { (length r.level.now ≤ 2048) × (length r.level.now ≤ length son.now) × (length r.level.now ≤ N) }
    ensures { found.new.items ≡ unpitched_peaks r.entry.level.now pitch.now son.now r.entry.bounds }
{
    local_extrema(r.level, r.bounds.start, r.bounds.end, Extremum::Max, found);
    found.retain(|x| unpitched(r, pitch, son, *x));
}
