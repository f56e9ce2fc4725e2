// What each entry is given is tested here, and the first refusal that applies is returned. Lengths come first, so that no
// later test reads more than 2,048 entries of a list.
// Each track, list and end of a region is a parameter of its own: the C interface gives them so, and a region that is not admitted
// yet may end before it starts.
#![tactic(auto)]

pub mod numbers;
pub mod values;

ghost use Rattle.std.specs.Prelude.{◌≡◌, true, cond, [], ◌∷◌, leb};
ghost use Rattle.admit.specs.First.{first_of};
ghost use Rattle.admit.specs.Numbers.{number_of};
ghost use Rattle.admit.specs.Values.{all_of};
ghost use Rattle.admit.specs.Refusals.{order, speech_refusal, region_refusal, repair_refusal, recovery_refusal, nuclei_refusal, extras_refusal, boundaries_with_refusal, chain_refusal};

use numbers::{Refusal, first_failed};
use region::Settings;
use values::{
    all_db, all_lengths, all_marks, all_pitches, all_within, is_rising, settings_admitted,
};

// The most frames that a take has.
pub const MAX_FRAMES: usize = 2048;

// 160 samples for each of the most frames.
const MAX_SAMPLES: usize = 327680;

// Whether the tests of each refusal after that of lengths are passed: by `pitch` those of pitches and `voiced_p`, by
// `sonority` those of sonority and marks. An entry leaves what it is not given at true.
#[derive(Clone, Copy)]
struct Passed {
    alike: bool,
    settings: bool,
    db: bool,
    pitch: bool,
    sonority: bool,
    region: bool,
    nuclei: bool,
    samples: bool,
    room: bool,
}

const UNTESTED: Passed = Passed {
    alike: true,
    settings: true,
    db: true,
    pitch: true,
    sonority: true,
    region: true,
    nuclei: true,
    samples: true,
    room: true,
};

// The first test: whether the lists have no more entries than a take has frames.
fn lengths_refusal(lengths: &[usize]) -> Result<(), Refusal>
    ensures { number_of result ≡ cond (all_of (λ m. leb m 2048) lengths.now) 0 1 }
{
    if !all_lengths(lengths, MAX_FRAMES) {
        return Err(Refusal::Lengths);
    }
    Ok(())
}

// The table: the refusals after it, in the order of the tests.
#[tactic(auto, unfolding(crate::specs::First::first_of))]
fn first_refusal(t: Passed) -> Result<(), Refusal>
    ensures { number_of result ≡ first_of order
        (true ∷ t.alike ∷ t.settings ∷ t.db ∷ t.pitch ∷ t.sonority ∷ t.region ∷ t.nuclei ∷ t.samples ∷ t.room ∷ []) }
{
    first_failed(&[
        (t.alike, Refusal::Alike),
        (t.settings, Refusal::Settings),
        (t.db, Refusal::Db),
        (t.pitch, Refusal::Pitch),
        (t.sonority, Refusal::Sonority),
        (t.region, Refusal::Region),
        (t.nuclei, Refusal::Nuclei),
        (t.samples, Refusal::Samples),
        (t.room, Refusal::Room),
    ])
}

// For speech marks, into a list of `marks` entries.
pub fn speech_refusal(db: &[f32], p: Settings, marks: usize) -> Result<(), Refusal>
    ensures { number_of result ≡ speech_refusal db.now p marks }
{
    let n = db.len();
    lengths_refusal(&[n])?;
    first_refusal(Passed {
        settings: settings_admitted(p),
        db: all_db(db),
        room: n <= marks,
        ..UNTESTED
    })
}

// For the region.
pub fn region_refusal(db: &[f32], p: Settings) -> Result<(), Refusal>
    ensures { number_of result ≡ region_refusal db.now p }
{
    lengths_refusal(&[db.len()])?;
    first_refusal(Passed {
        settings: settings_admitted(p),
        db: all_db(db),
        ..UNTESTED
    })
}

// For the octave repair: an octave either way leaves a pitch within 20 to 4,000 Hz.
pub fn repair_refusal(pitch: &[f32]) -> Result<(), Refusal>
    ensures { number_of result ≡ repair_refusal pitch.now }
{
    lengths_refusal(&[pitch.len()])?;
    first_refusal(Passed {
        pitch: all_pitches(pitch, 40.0, 2000.0),
        ..UNTESTED
    })
}

// For the recovery, by the number of samples. Marks may be fewer or more than the pitches.
pub fn recovery_refusal(
    pitch: &[f32],
    samples: usize,
    speech: &[u8],
    vowel: &[u8],
) -> Result<(), Refusal>
    ensures { number_of result ≡ recovery_refusal pitch.now samples speech.now vowel.now }
{
    lengths_refusal(&[pitch.len(), speech.len(), vowel.len()])?;
    first_refusal(Passed {
        pitch: all_pitches(pitch, 20.0, 4000.0),
        sonority: all_marks(speech) & all_marks(vowel),
        samples: samples <= MAX_SAMPLES,
        ..UNTESTED
    })
}

// For nuclei, into two lists of so many entries.
pub fn nuclei_refusal(
    db: &[f32],
    pitch: &[f32],
    start: usize,
    end: usize,
    p: Settings,
    frames: usize,
    strengths: usize,
) -> Result<(), Refusal>
    ensures { number_of result ≡ nuclei_refusal db.now pitch.now start end p frames strengths }
{
    let n = db.len();
    lengths_refusal(&[n, pitch.len()])?;
    first_refusal(Passed {
        alike: pitch.len() == n,
        settings: settings_admitted(p),
        db: all_db(db),
        pitch: all_pitches(pitch, 20.0, 4000.0),
        region: (start <= end) & (end <= n),
        room: (n <= frames) & (n <= strengths),
        ..UNTESTED
    })
}

// For extra candidates, into two lists and a list of edges. A sonority of another length than the track is admitted.
pub fn extras_refusal(
    db: &[f32],
    pitch: &[f32],
    sonority: &[f32],
    start: usize,
    end: usize,
    nuclei: &[u32],
    p: Settings,
    frames: usize,
    strengths: usize,
    edges: usize,
) -> Result<(), Refusal>
    ensures { number_of result ≡ extras_refusal db.now pitch.now sonority.now start end
        nuclei.now p frames strengths edges }
{
    let n = db.len();
    lengths_refusal(&[n, pitch.len(), sonority.len(), nuclei.len()])?;
    first_refusal(Passed {
        alike: pitch.len() == n,
        settings: settings_admitted(p),
        db: all_db(db),
        pitch: all_pitches(pitch, 20.0, 4000.0),
        sonority: all_within(sonority, 0.0, 1.0),
        region: (start <= end) & (end <= n),
        nuclei: is_rising(nuclei, n),
        room: (n <= frames) & (n <= strengths) & (n <= edges),
        ..UNTESTED
    })
}

// For boundaries under given settings: the region's end may be frame n itself, so a list of n entries is too short.
pub fn boundaries_with_refusal(
    db: &[f32],
    pitch: &[f32],
    voiced: &[f32],
    start: usize,
    end: usize,
    nuclei: &[u32],
    p: Settings,
    bounds: usize,
) -> Result<(), Refusal>
    ensures { number_of result ≡ boundaries_with_refusal db.now pitch.now voiced.now start end
        nuclei.now p bounds }
{
    let n = db.len();
    lengths_refusal(&[n, pitch.len(), voiced.len(), nuclei.len()])?;
    first_refusal(Passed {
        alike: (pitch.len() == n) & (voiced.len() == n),
        settings: settings_admitted(p),
        db: all_db(db),
        pitch: all_pitches(pitch, 20.0, 4000.0) & all_within(voiced, 0.0, 1.0),
        region: (start <= end) & (end <= n),
        nuclei: is_rising(nuclei, n),
        room: n < bounds,
        ..UNTESTED
    })
}

// For the chain: frames and strengths of nuclei, then of extras, then edges and boundaries are lists of so many entries.
pub fn chain_refusal(
    db: &[f32],
    pitch: &[f32],
    voiced: &[f32],
    sonority: &[f32],
    vowel: &[u8],
    samples: usize,
    p: Settings,
    frames: usize,
    strengths: usize,
    xframes: usize,
    xstrengths: usize,
    edges: usize,
    bounds: usize,
) -> Result<(), Refusal>
    ensures { number_of result ≡ chain_refusal db.now pitch.now voiced.now sonority.now
        vowel.now samples p frames strengths xframes xstrengths edges bounds }
{
    let n = db.len();
    lengths_refusal(&[n, pitch.len(), voiced.len(), sonority.len(), vowel.len()])?;
    let nuclei = (n <= frames) & (n <= strengths);
    let extras = nuclei & (n <= xframes) & (n <= xstrengths);
    first_refusal(Passed {
        alike: (pitch.len() == n) & (voiced.len() == n),
        settings: settings_admitted(p),
        db: all_db(db),
        pitch: all_pitches(pitch, 40.0, 2000.0) & all_within(voiced, 0.0, 1.0),
        sonority: all_within(sonority, 0.0, 1.0) & all_marks(vowel),
        samples: samples <= MAX_SAMPLES,
        room: extras & (n <= edges) & (n < bounds),
        ..UNTESTED
    })
}
