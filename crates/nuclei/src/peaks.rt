// Peaks of the level with a pitch near them.
ghost use Rattle.std.specs.Prelude.{◌≡◌, ◌++◌, ◌+◌, ◌≤◌, length};
ghost use Rattle.arrayvec.specs.ArrayVec.{array_vec_len};
ghost use Rattle.nuclei.specs.Peaks.{pitch_near, speech_by_level, voiced_peak, clamp_to, onto_run, peaks_onto};

use arrayvec::ArrayVec;
use region::Bounds;
use runs::near::{near_end, near_start, run_of};
use runs::voiced::{Span, is_voiced};

// The level of a track, and where in it syllables are looked for.
// The limit of 2,048 frames is not in it: `is_speech` and `peaks_onto` take longer levels.
#[derive(Clone, Copy)]
pub struct RegionLevel<'a> {
    pub level: &'a [f32],
    pub bounds: Bounds,
    ghost inside: { bounds.end ≤ length level.now },
}

impl<'a> RegionLevel<'a> {
    // Whether frame at is in the region, and its level at or above the speech threshold.
    pub fn is_speech(self, at: u32) -> bool
        ensures { result ≡ speech_by_level self.entry.level.now self.entry.bounds at }
    {
        let i = at as usize;
        (self.bounds.start..self.bounds.end).contains(&i) && self.bounds.threshold <= self.level[i]
    }
}

// Whether some frame within 2 of frame at has a pitch.
pub fn pitch_near(pitch: &[f32], at: u32) -> bool
    ensures { result ≡ pitch_near pitch.now at }
{
    (near_start(at)..near_end(at, pitch.len())).any(|i| is_voiced(pitch[i]))
}

// Whether a peak of the level is a candidate.
fn voiced_peak(r: RegionLevel<'_>, pitch: &[f32], at: u32) -> bool
    ensures { result ≡ voiced_peak r.entry.level.now pitch.now r.entry.bounds at }
{
    pitch_near(pitch, at) && r.is_speech(at)
}

// The frame of a run that is nearest to frame at.
// By hand: the library's `clamp` requires that the ends are in order, which these contracts do not ask of runs.
fn clamp(run: Span, at: u32) -> u32
    ensures { result ≡ clamp_to run at }
{
    if at < run.first {
        run.first
    } else if run.last < at {
        run.last
    } else {
        at
    }
}

// Frame at, moved onto the nearest frame of the run that it belongs to if that one is speech; at itself where it
// belongs to none.
fn onto_run(r: RegionLevel<'_>, runs: &[Span], at: u32) -> u32
    requires { length runs.now ≤ 2048 }
    ensures { result ≡ onto_run r.entry.level.now r.entry.bounds runs.now at }
{
    let Some(found) = run_of(runs, at) else {
        return at;
    };
    let on = clamp(found.run, at);
    if r.is_speech(on) { on } else { at }
}

// Puts those of the peaks that are candidates, each moved onto its run, after what there is.
pub fn peaks_onto<const N: usize>(
    r: RegionLevel<'_>,
    pitch: &[f32],
    runs: &[Span],
    peaks: &[u32],
    out: &mut ArrayVec<u32, N>,
)
    requires { (length runs.now ≤ 2048) × (array_vec_len out.old + length peaks.now ≤ N) }
    ensures { out.new.items ≡ out.old.items ++
        peaks_onto r.entry.level.now pitch.now r.entry.bounds runs.now peaks.now }
{
    for x in peaks {
        if voiced_peak(r, pitch, *x) {
            out.push(onto_run(r, runs, *x));
        }
    }
}
