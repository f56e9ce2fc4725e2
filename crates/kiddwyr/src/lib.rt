// The entries under their C names, over nucleus records: each copies between a lent list of records and plain lists of its
// own, and leaves the rest to the entry over plain lists.
// Plain lists under the records: a form that was asked for by name (docs/DECISIONS.md). Each track and list is a parameter of its
// own, as C gives them.
#![tactic(auto)]

ghost use Rattle.std.specs.Prelude.{◌≡◌, ◌≤◌, length, take};
ghost use Rattle.region.specs.Defaults.{defaults, classic};
ghost use Rattle.entries.specs.Stages.{MarksCall, RegionCall, RepairCall, RecoverCall, BoundariesWithCall, BoundariesCall};
ghost use Rattle.chain.specs.Chain.{take_of};
ghost use Rattle.kiddwyr.specs.Records.{frames_in, lists_of, NucleiCall, ExtrasCall, ChainCall};
ghost use Rattle.kiddwyr.specs.Copied.{Filled};

use admit::MAX_FRAMES;
use admit::numbers::number;
use arrayvec::ArrayVec;
use chain::Marks;
use entries::stages::{Answer, Counted, Spanned};
use region::Settings;
use within::{chain_within, extras_within, nuclei_within};

// A nucleus: its frame, and its level over the floor in dB.
#[repr(C)]
#[derive(Clone, Copy)]
pub struct Nucleus {
    pub frame: u32,
    pub strength: f32,
}

// Writes frames and their strengths as records at the front of a list.
// By index: `iter_mut` with `zip` took 1.4 times as long.
fn fill_nuclei(frames: &[u32], strengths: &[f32], out: &mut [Nucleus])
    requires { (length strengths.now ≡ length frames.now) × (length frames.now ≤ length out.old) }
    ensures { Filled frames.now strengths.now out.old out.new }
{
    for i in 0..frames.len() {
        out[i] = Nucleus {
            frame: frames[i],
            strength: strengths[i],
        };
    }
}

// One nucleus more than is admitted, so that too many are refused.
const GIVEN: usize = MAX_FRAMES + 1;

// The frames of records, of the first 2,049 at most.
fn frames_of(nuclei: &[Nucleus]) -> ArrayVec<u32, GIVEN>
    ensures { result.items ≡ take 2049 (frames_in nuclei.now) }
{
    let mut frames = ArrayVec::new();
    for nucleus in &nuclei[..nuclei.len().min(GIVEN)] {
        frames.push(nucleus.frame);
    }
    frames
}

// Writes the nuclei of start..end.
#[unsafe(no_mangle)]
pub extern "C" fn kiddwyr_nuclei(
    db: &[f32],
    pitch: &[f32],
    start: usize,
    end: usize,
    p: Settings,
    list: &mut [Nucleus],
) -> Answer
    ensures { NucleiCall db.now pitch.now start end p list.old list.new result }
{
    let mut frames = [0u32; MAX_FRAMES];
    let mut strengths = [0.0f32; MAX_FRAMES];
    let answer = Answer::from(nuclei_within(
        db,
        pitch,
        start,
        end,
        p,
        &mut frames,
        &mut strengths,
        list.len(),
    ));
    let n = answer.count;
    fill_nuclei(&frames[..n], &strengths[..n], list);
    answer
}

// Writes the extra candidates around nuclei, and their edges.
#[unsafe(no_mangle)]
pub extern "C" fn kiddwyr_extras(
    db: &[f32],
    pitch: &[f32],
    sonority: &[f32],
    start: usize,
    end: usize,
    nuclei: &[Nucleus],
    p: Settings,
    list: &mut [Nucleus],
    edges: &mut [u32],
) -> Counted
    ensures { ExtrasCall db.now pitch.now sonority.now start end
        (frames_in nuclei.now) p list.old list.new edges.old edges.new result }
{
    let given = frames_of(nuclei);
    let mut frames = [0u32; MAX_FRAMES];
    let mut strengths = [0.0f32; MAX_FRAMES];
    let counted = Counted::from(extras_within(
        db,
        pitch,
        sonority,
        start,
        end,
        &given,
        p,
        edges,
        &mut frames,
        &mut strengths,
        list.len(),
    ));
    let n = counted.extras;
    fill_nuclei(&frames[..n], &strengths[..n], list);
    counted
}

// The boundaries of start..end under given settings, around nuclei.
#[unsafe(no_mangle)]
pub extern "C" fn kiddwyr_boundaries_with(
    db: &[f32],
    pitch: &[f32],
    voiced: &[f32],
    start: usize,
    end: usize,
    nuclei: &[Nucleus],
    p: Settings,
    out: &mut [u32],
) -> Answer
    ensures { BoundariesWithCall db.now pitch.now voiced.now start end
        (frames_in nuclei.now) p out.old out.new result }
{
    let given = frames_of(nuclei);
    Answer::from(entries::stages::boundaries_with(db, pitch, voiced, start, end, &given, p, out))
}

// The boundaries of start..end under the defaults, around nuclei.
#[unsafe(no_mangle)]
pub extern "C" fn kiddwyr_boundaries(
    db: &[f32],
    pitch: &[f32],
    voiced: &[f32],
    start: usize,
    end: usize,
    nuclei: &[Nucleus],
    out: &mut [u32],
) -> Answer
    ensures { BoundariesCall db.now pitch.now voiced.now start end
        (frames_in nuclei.now) out.old out.new result }
{
    let given = frames_of(nuclei);
    Answer::from(entries::stages::boundaries(db, pitch, voiced, start, end, &given, out))
}

// The whole chain. A call is refused by the lowest number that applies, and then changes nothing; else pitches are
// written in any case, and the lists where there is a region.
#[unsafe(no_mangle)]
pub extern "C" fn kiddwyr_chain(
    db: &[f32],
    pitch: &mut [f32],
    voiced: &[f32],
    sonority: &[f32],
    vowel: &[u8],
    samples: &[i16],
    p: Settings,
    nuclei: &mut [Nucleus],
    extras: &mut [Nucleus],
    edges: &mut [u32],
    bounds: &mut [u32],
) -> Marks
    ensures { ChainCall
        (take_of db.now pitch.old voiced.now sonority.now vowel.now
        samples.now p)
        (lists_of nuclei.old extras.old edges.old bounds.old)
        (lists_of nuclei.new extras.new edges.new bounds.new)
        pitch.new result }
{
    let mut frames = [0u32; MAX_FRAMES];
    let mut strengths = [0.0f32; MAX_FRAMES];
    let mut xframes = [0u32; MAX_FRAMES];
    let mut xstrengths = [0.0f32; MAX_FRAMES];
    let marks = Marks::from(chain_within(
        db,
        pitch,
        voiced,
        sonority,
        vowel,
        samples,
        p,
        edges,
        bounds,
        &mut frames,
        &mut strengths,
        &mut xframes,
        &mut xstrengths,
        nuclei.len(),
        extras.len(),
    ));
    let n = marks.nuclei;
    fill_nuclei(&frames[..n], &strengths[..n], nuclei);
    let x = marks.extras;
    fill_nuclei(&xframes[..x], &xstrengths[..x], extras);
    marks
}

// The speech marks.
#[unsafe(no_mangle)]
pub extern "C" fn kiddwyr_speech_marks(db: &[f32], p: Settings, marks: &mut [u8]) -> Answer
    ensures { MarksCall db.now p marks.old marks.new result }
{
    Answer::from(entries::stages::speech_marks(db, p, marks))
}

// The region.
#[unsafe(no_mangle)]
pub extern "C" fn kiddwyr_region(db: &[f32], p: Settings) -> Spanned
    ensures { RegionCall db.now p result }
{
    Spanned::from(entries::stages::region(db, p))
}

// The octave repair, in place.
#[unsafe(no_mangle)]
pub extern "C" fn kiddwyr_repair(pitch: &mut [f32]) -> u32
    ensures { RepairCall pitch.old pitch.new result }
{
    number(entries::stages::repair(pitch))
}

// The recovery, in place.
#[unsafe(no_mangle)]
pub extern "C" fn kiddwyr_recover(
    pitch: &mut [f32],
    samples: &[i16],
    speech: &[u8],
    vowel: &[u8],
) -> u32
    ensures { RecoverCall samples.now speech.now vowel.now pitch.old
        pitch.new result }
{
    number(entries::stages::recover(pitch, samples, speech, vowel))
}

// The settings where a call sets none.
#[unsafe(no_mangle)]
pub extern "C" fn kiddwyr_defaults() -> Settings
    ensures { result ≡ defaults }
{
    region::default_settings()
}

// The settings of old lessons.
#[unsafe(no_mangle)]
pub extern "C" fn kiddwyr_classic() -> Settings
    ensures { result ≡ classic }
{
    region::classic_settings()
}

// The version, as the file VERSION has it: 10,000 times its first part, 100 times the second, and the third.
const VERSION: u32 = 60000;

// The version of the library.
#[unsafe(no_mangle)]
pub extern "C" fn kiddwyr_version() -> u32
    ensures { result ≡ 60000 }
{
    VERSION
}
