// A pitch estimate for each frame of a track that is tried.
ghost use Rattle.std.specs.Prelude.{◌≡◌, ◌-◌, ◌*◌, ◌≤◌, ◌<◌, eqb, length, get_or, drop};
ghost use Rattle.lists.specs.Frames.{first_in};
ghost use Rattle.nsdf.specs.Period.{period_hz};
ghost use Rattle.recover.specs.Estimates.{pitchless, tried, estimate_at, estimates, InRange};

use nsdf::period::period_hz;
use std::marker::Model;

// An estimate as a list holds it, or none: a number of Hz, 0.0 for none. It has 8 bytes, where an `Option<f64>` has 16.
#[derive(Clone, Copy)]
pub struct Estimate {
    hz: f64,
}

impl Model for Estimate {
    ghost use Rattle.std.specs.Prelude.{Option, Float};
    ghost use Rattle.recover.specs.Held.{held, read_of, OneZero, held_read};

    ghost Value = { Option Float };

    ghost view = { λ e. read_of e.hz };

    ghost invariant = { λ e. OneZero e.hz };

    ghost inverse = { λ o. record { hz = held o } };

    ghost inverse_ok = { λ e h i. record { hz = held_read e.hz h i } };
}

impl Estimate {
    // The number that holds an estimate, or none.
    pub fn of(found: Option<f64>) -> Estimate
        requires { InRange found }
        ensures { result ≡ found }
    {
        Estimate {
            hz: found.unwrap_or(0.0),
        }
    }

    // What it holds.
    pub fn get(self) -> Option<f64>
        ensures { result ≡ self }
    {
        if self.hz == 0.0 { None } else { Some(self.hz) }
    }
}

// Whether the mark of frame i is 1: not where the list is too short.
fn is_marked(marks: &[u8], i: usize) -> bool
    ensures { result ≡ eqb (get_or marks.now i 0) 1 }
{
    marks.get(i) == Some(&1)
}

// Whether frame i has no pitch: so past the end of the track.
pub fn is_pitchless(pitch: &[f32], i: usize) -> bool
    ensures { result ≡ pitchless pitch.now i }
{
    pitch.get(i).copied().unwrap_or(0.0) == 0.0
}

// What is found around frame i, which is tried. Inlined, the bounds of the window were worked out for each frame, tried or not.
#[inline(never)]
fn period_at(samples: &[i16], i: usize) -> Option<f64>
    requires { i < 2048 }
    ensures { result ≡ period_hz samples.now (160 * i) }
{
    period_hz(samples, 160 * i)
}

// A track as given, with the marks of speech and of vowels, which are bytes since C lends them so.
#[derive(Clone, Copy)]
pub struct Marked<'a> {
    pub pitch: &'a [f32],
    pub speech: &'a [u8],
    pub vowel: &'a [u8],
}

impl<'a> Marked<'a> {
    // Whether frame i has no pitch and is both speech and vowel.
    fn is_tried(self, i: usize) -> bool
        ensures { result ≡ tried self.entry.pitch.now self.entry.speech.now self.entry.vowel.now i }
    {
        is_pitchless(self.pitch, i) && is_marked(self.speech, i) && is_marked(self.vowel, i)
    }

    // The first frame that is tried. The library's `find` and not `first_from`: a frame that is not tried takes few steps, and where
    // the first one is, nothing is to be skipped.
    pub fn first_tried(self) -> Option<usize>
        ensures { result ≡ first_in (tried self.entry.pitch.now self.entry.speech.now self.entry.vowel.now)
            0 (length self.entry.pitch.now) }
    {
        (0..self.pitch.len()).find(|i| self.is_tried(*i))
    }

    // The estimate of frame i, from the samples around sample 160 * i: none where the frame is not tried.
    fn estimate_at(self, samples: &[i16], i: usize) -> Option<f64>
        requires { i < 2048 }
        ensures { result ≡ estimate_at (period_hz samples.now) self.entry.pitch.now self.entry.speech.now
            self.entry.vowel.now i }
    {
        if self.is_tried(i) {
            period_at(samples, i)
        } else {
            None
        }
    }
}

// Writes the estimates of the last frames, as many as the list has entries: of all, where it is as long as the track.
pub fn estimates(track: Marked<'_>, samples: &[i16], out: &mut [Estimate])
    requires pitch_len_bound { length track.pitch.now ≤ 2048 }
    requires out_len { length out.old ≤ length track.pitch.now }
    ensures { out.new ≡ drop (length track.entry.pitch.now - length out.old)
        (estimates (period_hz samples.now) track.entry.pitch.now track.entry.speech.now
        track.entry.vowel.now) }
{
    let from = track.pitch.len() - out.len();
    // By index: `iter_mut().zip(..)` took 1.4 times as long.
    for i in 0..out.len() {
        out[i] = Estimate::of(track.estimate_at(samples, from + i));
    }
}
