// The run that a frame belongs to.
ghost use Rattle.std.specs.Prelude.{◌≡◌, ◌+◌, ◌-◌, ◌≤◌, min, length};
ghost use Rattle.runs.specs.Near.{distance, run_of, separate};

use super::voiced::Span;

// Frames at most this far apart are near: a frame this far outside a run belongs to it.
pub const RADIUS: u32 = 2;

// The run that a frame belongs to: its number among the runs, and the run.
#[derive(Clone, Copy)]
pub struct Found {
    pub number: u32,
    pub run: Span,
}

// The first frame within 2 of frame at; near the start of the track frame 0.
pub fn near_start(at: u32) -> usize
    ensures { result ≡ at - 2 }
{
    at.saturating_sub(RADIUS) as usize
}

// One past the last frame within 2 of frame at; near the end of a track of n frames n.
pub fn near_end(at: u32, n: usize) -> usize
    ensures { result ≡ min (at + 3) n }
{
    n.min(at as usize + RADIUS as usize + 1)
}

impl Span {
    // How far frame at lies outside the run; 0 inside it.
    fn distance(self, at: u32) -> u32
        ensures { result ≡ distance self at }
    {
        self.first
            .saturating_sub(at)
            .max(at.saturating_sub(self.last))
    }
}

// The nearest run within 2 frames of frame at, the earlier on a tie; nothing where there is none.
pub fn run_of(runs: &[Span], at: u32) -> Option<Found>
    requires { length runs.now ≤ 2048 }
    ensures { result ≡ run_of runs.now at }
{
    let mut best = None;
    let mut d = RADIUS + 1;
    for (k, run) in runs.iter().enumerate() {
        let e = run.distance(at);
        if e < d {
            d = e;
            best = Some(Found {
                number: k as u32,
                run: *run,
            });
        }
    }
    best
}

// Whether two frames belong to two different runs; not where one of them belongs to none.
pub fn in_separate_runs(runs: &[Span], a: u32, b: u32) -> bool
    requires { length runs.now ≤ 2048 }
    ensures { result ≡ separate runs.now a b }
{
    let Some(x) = run_of(runs, a) else {
        return false;
    };
    let Some(y) = run_of(runs, b) else {
        return false;
    };
    x.number != y.number
}
