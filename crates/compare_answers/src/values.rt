// Kinds whose answer has an entry for each of the input: rounding, order, sorting, comparisons of pitches. And the periodicity
// of a window at each lag.
ghost use Rattle.std.specs.Prelude.{◌≡◌, ◌<◌};
ghost use Rattle.floats.specs.Plain.{is_between};
ghost use Rattle.powers.specs.Pitch.{hz};

use super::fields::{float, long, word};
use super::out::Out;
use super::tables::{first, samples_in};
use arrayvec::ArrayVec;
use floats::bits::{f64_from_bits, f64_to_bits, to_bits};
use floats::plain::is_finite;
use floats::rounding::round_to_f32;
use floats::total::{from_total_key, total_key};
use lists::candidates::{frame_of, key_of};
use lists::sort::sort;
use nsdf::sums::Window;
use powers::pitch::{Octave, breaks_any, is_pitch, octave_of, within_step};

// The samples of a window, and the lags at which its periodicity is asked for: from 1 on.
const WINDOW: usize = 512;

const LAGS: usize = 230;

// What is written where an input is no pitch, so that the answer differs from any of the reference's.
const NO_PITCH: u64 = 255;

// What is asked of each entry. An enum and no closures: how an entry is read, whether all are sorted and how one is shown go
// together, and the names are the judge's.
#[derive(Clone, Copy)]
pub enum Entry {
    Round,
    Finite,
    TotalOrder,
    Sort,
    Candidates,
    Break,
    Step,
    Octave,
}

// Whether p is within the range of the estimates. By hand: `contains` of a range goes by `partial_cmp`, and its answer was not
// proved to be that of the two comparisons.
fn is_estimate(p: f64) -> bool
    ensures { result ≡ is_between (hz 60) (hz 600) p }
{
    60.0 <= p && p <= 600.0
}

// Whether two estimates are within a step, where both are estimates.
fn step_of(p: f64, q: f64) -> Option<bool> {
    (is_estimate(p) && is_estimate(q)).then(|| within_step(p, q))
}

// The repair of a frame beside two others, where all three have a pitch.
fn repair_of(f: f32, a: f32, b: f32) -> Option<Octave> {
    (is_pitch(f) && is_pitch(a) && is_pitch(b)).then(|| octave_of(f, a, b))
}

// The number that stands for a repair. No `From`: neither type is this crate's.
fn number_of(octave: Octave) -> u64 {
    match octave {
        Octave::Keep => 0,
        Octave::Halve => 1,
        Octave::Double => 2,
    }
}

impl Entry {
    // The bytes of an entry of the input.
    fn input_bytes(self) -> usize
        ensures { 0 < result }
    {
        match self {
            Entry::Finite | Entry::TotalOrder => 4,
            Entry::Round | Entry::Sort | Entry::Candidates | Entry::Break => 8,
            Entry::Octave => 12,
            Entry::Step => 16,
        }
    }

    // The bytes that are answered for an entry.
    fn answer_bytes(self) -> usize {
        match self {
            Entry::Finite | Entry::Break | Entry::Step | Entry::Octave => 1,
            Entry::Round | Entry::TotalOrder | Entry::Candidates => 4,
            Entry::Sort => 8,
        }
    }

    // What stands for an entry, by its bytes.
    fn read(self, s: &[u8]) -> u64 {
        match self {
            Entry::Round => u64::from(to_bits(round_to_f32(f64_from_bits(long(s, 0))))),
            Entry::Finite => u64::from(is_finite(float(s, 0))),
            Entry::TotalOrder => u64::from(total_key(float(s, 0))),
            Entry::Sort => long(s, 0),
            Entry::Candidates => key_of(word(s, 0), float(s, 1)),
            Entry::Break => u64::from(breaks_any(float(s, 0), float(s, 1))),
            Entry::Step => step_of(f64_from_bits(long(s, 0)), f64_from_bits(long(s, 1))).map_or(
                NO_PITCH,
                u64::from,
            ),
            Entry::Octave => {
                repair_of(float(s, 0), float(s, 1), float(s, 2)).map_or(NO_PITCH, number_of)
            }
        }
    }

    // Whether the entries are answered in order.
    fn is_sorted(self) -> bool {
        matches!(self, Entry::TotalOrder | Entry::Sort | Entry::Candidates)
    }

    // What is answered for an entry, by what stands for it.
    fn shown(self, x: u64) -> u64 {
        match self {
            Entry::TotalOrder => u64::from(to_bits(from_total_key(frame_of(x)))),
            Entry::Candidates => u64::from(frame_of(x)),
            _ => x,
        }
    }
}

// What stands for the entries of an input, as far as a take has frames.
fn read_entries(entry: Entry, input: &[u8]) -> ArrayVec<u64, 2048> {
    let mut xs = ArrayVec::new();
    for s in input.chunks_exact(entry.input_bytes()) {
        // A test and no `take(2048)` above: that each push has room was not proved with it.
        if xs.is_full() {
            break;
        }
        xs.push(entry.read(s));
    }
    xs
}

pub fn entries(entry: Entry, input: &[u8], out: &mut Out<'_>) {
    let mut xs = read_entries(entry, input);
    if entry.is_sorted() {
        sort(xs.as_mut_slice());
    }
    for x in xs.as_slice() {
        out.number(entry.answer_bytes(), entry.shown(*x));
    }
}

// The window that some samples are, where they are no more than one has. An `if` as in `part_of`.
fn window_of(samples: &[i16]) -> Option<Window<'_>> {
    if samples.len() <= WINDOW {
        Some(Window { samples })
    } else {
        None
    }
}

pub fn periodicity(input: &[u8], out: &mut Out<'_>) {
    let samples = samples_in(input, WINDOW);
    let window = window_of(first(&samples, input.len() / 2));
    for lag in 1..LAGS + 1 {
        out.number(8, window.map_or(0, |w| f64_to_bits(w.nsdf(lag))));
    }
}
