// Pitches that the tracker left out, recovered from the samples in two steps: an estimate for each frame that is tried, then
// the track from the estimates, which reads no samples.
// That a track has at most 2,048 frames is a `requires` and no type: C gives plain slices, and a type round them would have to be
// made before each call. The track and its marks are parameters of their own here: the pitches are written while `Marked` would
// lend them.
#![tactic(auto)]

pub mod estimates;
pub mod stretches;

ghost use Rattle.std.specs.Prelude.{◌≡◌, ℕ, ◌≤◌, ◌<◌, false, length};
ghost use Rattle.recover.specs.Estimates.{tried};
ghost use Rattle.recover.specs.Recovered.{recovered};

use estimates::{Estimate, Marked, estimates};
use stretches::recover_stretches;

// The recovery of a track in which no frame before the first is tried.
fn recover_tried(pitch: &mut [f32], samples: &[i16], speech: &[u8], vowel: &[u8], first: usize)
    requires pitch_len_bound { length pitch.old ≤ 2048 }
    requires first_within { first ≤ length pitch.old }
    requires untried { (i : ℕ) → i < first → tried pitch.old speech.now vowel.now i ≡ false }
    ensures { pitch.new ≡ recovered pitch.old samples.now speech.now
        vowel.now }
{
    // The pitches as given, which the recovery looks at while it writes. They lie in a part of a table: `ArrayVec::try_from` would
    // have a refusal, which cannot come here.
    let mut given = [0.0f32; 2048];
    let given = &mut given[..pitch.len()];
    given.copy_from_slice(pitch);
    let track = Marked {
        pitch: given,
        speech,
        vowel,
    };
    // A table and its part: each frame has an entry, which is written at its place; there is no heap. Those before the first are
    // none already.
    let mut found = [Estimate::of(None); 2048];
    let found = &mut found[..pitch.len()];
    estimates(track, samples, &mut found[first..]);
    recover_stretches(found, given, pitch);
}

// Gives a pitch to every stretch of 3 frames or more that repeat well, are speech and vowel, and have no pitch near; other frames
// keep theirs. An empty track stays; without samples nothing is recovered.
pub fn recover_pitch(pitch: &mut [f32], samples: &[i16], speech: &[u8], vowel: &[u8])
    requires { length pitch.old ≤ 2048 }
    ensures { pitch.new ≡ recovered pitch.old samples.now speech.now
        vowel.now }
{
    let track = Marked {
        pitch,
        speech,
        vowel,
    };
    // Where none is, the tables are not made.
    if let Some(first) = track.first_tried() {
        recover_tried(pitch, samples, speech, vowel, first);
    }
}
