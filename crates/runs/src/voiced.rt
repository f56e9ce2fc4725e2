// The voiced frames of a pitch track, in which 0 is no pitch, and the runs that they make.
ghost use Rattle.std.specs.Prelude.{◌≡◌, true, cond, ◌∷◌, ◌+◌, ◌-◌, ◌≤◌, ◌<◌, length};
ghost use Rattle.std.specs.Float.Ieee.{ne};
ghost use Rattle.std.specs.Iterator.{YieldsFirst, item_count};
ghost use Rattle.floats.specs.Plain.{zero_f};
ghost use Rattle.lists.specs.Frames.{first_in};
ghost use Rattle.runs.specs.Runs.{voiced, sole, joined, span, voiced_runs, long_runs};
ghost use Rattle.runs.specs.Ahead.{runs_from};

use arrayvec::ArrayVec;
use lists::first::first_from;

// Two voiced frames that are at most this far apart share a run.
const MAX_STEP: usize = 3;
// A run with at least this many voiced frames is long.
pub const MIN_RUN_FRAMES: u32 = 5;
// The most runs that a track of 2,048 frames has: each begins 4 frames or more after the one before it.
pub const MOST_RUNS: usize = 512;

// A run by its first and last frame alone. That the first is not after the last is not in it: `run_of` takes any runs, and
// a gap (`dropouts`) is a `Span` too.
#[derive(Clone, Copy, Default)]
pub struct Span {
    pub first: u32,
    pub last: u32,
}

// A voiced run: its first and last frame, and how many voiced frames it has.
#[derive(Clone, Copy, Default)]
pub struct Run {
    pub first: u32,
    pub last: u32,
    pub size: u32,
}

impl Run {
    // The run by its two ends.
    fn span(self) -> Span
        ensures { result ≡ span self }
    {
        Span {
            first: self.first,
            last: self.last,
        }
    }

    // The run with frame f, if that has a pitch; else the run as it is.
    fn extended(self, hz: f32, f: u32) -> Run
        requires { self.size < 2048 }
        ensures { result ≡ cond (ne hz zero_f) (joined self (sole f)) self }
    {
        if is_voiced(hz) {
            Run {
                first: self.first,
                last: f,
                size: self.size + 1,
            }
        } else {
            self
        }
    }
}

// Whether there is a pitch.
pub fn is_voiced(hz: f32) -> bool
    ensures { result ≡ ne hz zero_f }
{
    hz != 0.0
}

// The first voiced frame from i on.
fn next_voiced(pitch: &[f32], i: usize) -> Option<usize>
    ensures { result ≡ first_in (voiced pitch.now) i (length pitch.now - i) }
{
    first_from(|k| is_voiced(pitch[k]), i, pitch.len())
}

// The voiced run that begins with the voiced frame f.
fn run_from(pitch: &[f32], f: usize) -> Run
    requires { (length pitch.now ≤ 2048) × (f < length pitch.now) × (voiced pitch.now f ≡ true) }
    ensures { (runs_from pitch.now f ≡ result ∷ runs_from pitch.now (result.last + 1)) × (f ≤ result.last)
        × (result.last < length pitch.now) }
{
    let mut run = Run {
        first: f as u32,
        last: f as u32,
        size: 1,
    };
    for i in f + 1..pitch.len() {
        if run.last as usize + MAX_STEP < i {
            return run;
        }
        run = run.extended(pitch[i], i as u32);
    }
    run
}

// The voiced runs of a track from frame `at` on, one after the other.
#[derive(Drop)]
struct RunsAhead<'a> {
    pitch: &'a [f32],
    at: usize,
    ghost short: { length pitch.now ≤ 2048 },
    ghost within: { at ≤ length pitch.now },
}

impl<'a> Iterator for RunsAhead<'a> {
    type Item = Run;

    ghost next_gives = { YieldsFirst (λ s. runs_from s.pitch.now s.at) };

    ghost remaining = { item_count (λ s. runs_from s.pitch.now s.at) };

    fn next(&mut self) -> Option<Run> {
        let first = next_voiced(self.pitch, self.at)?;
        let run = run_from(self.pitch, first);
        self.at = run.last as usize + 1;
        Some(run)
    }
}

// The voiced runs, in order.
pub fn voiced_runs(pitch: &[f32]) -> ArrayVec<Run, MOST_RUNS>
    requires { length pitch.now ≤ 2048 }
    ensures { result.items ≡ voiced_runs pitch.now }
{
    let mut runs = ArrayVec::new();
    for run in (RunsAhead { pitch, at: 0 }) {
        runs.push(run);
    }
    runs
}

// The long runs, in order.
pub fn long_runs(pitch: &[f32]) -> ArrayVec<Span, MOST_RUNS>
    requires { length pitch.now ≤ 2048 }
    ensures { result.items ≡ long_runs pitch.now }
{
    let mut runs = ArrayVec::new();
    for run in (RunsAhead { pitch, at: 0 }) {
        if MIN_RUN_FRAMES <= run.size {
            runs.push(run.span());
        }
    }
    runs
}
