// Pause edges, creaks and voicing edges.
ghost use Rattle.std.specs.Prelude.{◌≡◌, not, ◌&&◌, map, ℕ, Bool, ◌+◌, ◌-◌, ◌≤◌, ◌<◌, length};
ghost use Rattle.lists.specs.Frames.{all_frames};
ghost use Rattle.lists.specs.Candidates.{Candidate, key_of, in_turn};
ghost use Rattle.smooth.specs.Extrema.{inside};
ghost use Rattle.region.specs.Speech.{speech_at};
ghost use Rattle.runs.specs.Runs.{voiced};
ghost use Rattle.boundaries.specs.Taken.{marked, Keyed, AddedInTurn, Spread};
ghost use Rattle.boundaries.specs.Edges.{between, changed, jump, loud_beside, pause_edge, voicing_edge};
ghost use Rattle.boundaries.specs.Boundaries.{creaky};

use super::taken::Kept;
use arrayvec::ArrayVec;
use floats::plain::{magnitude, or_zero};
use lists::candidates::key_of;
use region::{Bounds, is_speech};
use runs::syllables::dropouts;
use runs::voiced::is_voiced;

// The size of the difference of two values, rounded to f32.
fn jump_of(x: f32, y: f32) -> f32
    ensures { result ≡ jump x y }
{
    magnitude(x - y)
}

// Edges between the frames of a track.
pub trait Edges {
    // how many frames the track has
    ghost frames: { Self → ℕ };

    // whether there is an edge between frame i and the one before it
    ghost here: { Self → ℕ → Bool };

    // the edge there
    ghost edge: { Self → ℕ → Candidate };

    // Whether there is an edge between frame i and the one before it.
    fn is_here(&self, i: usize) -> bool
        requires { (0 < i) × (i < frames self.now) × (frames self.now ≤ 2048) }
        ensures { result ≡ here self.now i };

    // The key of the edge there.
    fn key(&self, i: usize) -> u64
        requires { (0 < i) × (i < frames self.now) × (frames self.now ≤ 2048) }
        ensures { result ≡ key_of (edge self.now i) };
}

// Tries the edges strictly inside the region, the heaviest first, the earlier of equal ones.
pub fn add_edges<E: Edges>(edges: &E, b: Bounds, kept: &mut Kept)
    requires region { (b.start ≤ b.end) × (b.end ≤ E.frames edges.now) × (E.frames edges.now ≤ 2048) }
    requires keyed { Keyed (map (E.edge edges.now) (between b.start b.end (E.here edges.now))) }
    ensures { AddedInTurn (in_turn (map (E.edge edges.now) (between b.start b.end (E.here edges.now)))) kept.old kept.new }
{
    let mut keys: ArrayVec<u64, 2048> = ArrayVec::new();
    for i in b.start + 1..b.end {
        if edges.is_here(i) {
            keys.push(edges.key(i));
        }
    }
    kept.add_sorted(&mut keys);
}

// Marks the frames from a on and before b.
pub fn mark_frames(a: usize, b: usize, marks: &mut [bool; 2048])
    requires { (a ≤ b) × (b ≤ 2048) }
    ensures { Spread (inside a b) marks.old marks.new }
{
    marks[a..b].fill(true);
}

// The dB of a take, and the threshold over which it is speech.
#[derive(Clone, Copy)]
pub struct Speech<'a> {
    pub db: &'a [f32],
    pub threshold: f32,
}

impl Speech<'_> {
    // Whether frame i is speech; past the track none is.
    fn at(self, i: usize) -> bool
        ensures { result ≡ speech_at self.entry.threshold self.entry.db.now i }
    {
        i < self.db.len() && is_speech(self.threshold, self.db[i])
    }

    // Frame i if it is speech, else the frame before it.
    fn loud_beside(self, i: usize) -> usize
        requires { 0 < i }
        ensures { (result ≡ loud_beside self.entry.db.now self.entry.threshold i) × (result ≤ i) }
    {
        if self.at(i) { i } else { i - 1 }
    }

    // Whether each frame from a on and before b is speech; of none, yes.
    fn fills(self, a: usize, b: usize) -> bool
        ensures { result ≡ all_frames (speech_at self.entry.threshold self.entry.db.now) a (b - a) }
    {
        (a..b).all(|i| self.at(i))
    }

    // Marks of the frames in creaks: dropouts whose frames are all speech, each with the first frame after it.
    pub fn creaks(self, pitch: &[f32]) -> [bool; 2048]
        requires { length pitch.now ≤ 2048 }
        ensures { marked result ≡ creaky self.entry.db.now pitch.now self.entry.threshold }
    {
        let mut marks = [false; 2048];
        let gaps = dropouts(pitch);
        for gap in gaps.as_slice() {
            let a = gap.first as usize + 1;
            let b = gap.last as usize;
            if self.fills(a, b) {
                mark_frames(a, b + 1, &mut marks);
            }
        }
        marks
    }
}

// The edges of pauses.
impl Edges for Speech<'_> {
    ghost frames = { λ s. length s.db.now };

    ghost here = { λ s. changed (speech_at s.threshold s.db.now) };

    ghost edge = { λ s. pause_edge s.db.now s.threshold };

    fn is_here(&self, i: usize) -> bool {
        self.at(i - 1) != self.at(i)
    }

    fn key(&self, i: usize) -> u64 {
        let weight = jump_of(or_zero(self.db[i]), or_zero(self.db[i - 1]));
        key_of(self.loud_beside(i) as u32, weight)
    }
}

// The pitch of a take, how voiced its frames are, and marks of those that are skipped.
#[derive(Clone, Copy)]
pub struct Voicing<'a> {
    pub pitch: &'a [f32],
    pub voiced: &'a [f32],
    pub skip: &'a [bool; 2048],
    ghost as_long: { length voiced.now ≡ length pitch.now },
}

// The voicing edges at frames that are not skipped.
impl Edges for Voicing<'_> {
    ghost frames = { λ v. length v.pitch.now };

    ghost here = { λ v i. changed (voiced v.pitch.now) i && not (marked v.skip.now i) };

    ghost edge = { λ v. voicing_edge v.voiced.now };

    fn is_here(&self, i: usize) -> bool {
        let before = is_voiced(self.pitch[i - 1]);
        let here = is_voiced(self.pitch[i]);
        before != here && !self.skip[i]
    }

    fn key(&self, i: usize) -> u64 {
        key_of(
            i as u32,
            or_zero(jump_of(self.voiced[i], self.voiced[i - 1])),
        )
    }
}
