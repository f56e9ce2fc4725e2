// The whole chain: speech marks, recovery, repair, region, nuclei, extra candidates, boundaries, each on the tracks so far.
// Each track and list of `chain` is a parameter of its own, as the C interface gives them.
// That a track has at most 2,048 frames goes with `Tracks`; where pitches are written it is a `requires` and no type, as in the
// stages that are called.
#![tactic(auto)]

ghost use Rattle.std.specs.Prelude.{◌≡◌, ◌≤◌, length, Some, Ok};
ghost use Rattle.region.specs.Speech.{marks_of};
ghost use Rattle.repair.specs.Repair.{Pitches, repaired};
ghost use Rattle.recover.specs.Recovered.{recovered};
ghost use Rattle.chain.specs.Chain.{take_of, lists_of, Room, reading_in, reading_with, marks_in, marks_for, MarkCall, ChainCall};

use admit::numbers::Refusal;
use admit::{MAX_FRAMES, chain_refusal};
use boundaries::boundaries_with;
use extra::extra_candidates;
use recover::recover_pitch;
use region::{Region, Settings, speech_frames, speech_region};
use repair::repair_octaves;

// What an admitted call finds: the region, where there is one, and how many entries each list got.
#[derive(Clone, Copy)]
pub struct Marked {
    pub region: Option<Region>,
    pub nuclei: usize,
    pub extras: usize,
    pub edges: usize,
    pub boundaries: usize,
}

// No region, and so no marks.
const UNMARKED: Marked = Marked {
    region: None,
    nuclei: 0,
    extras: 0,
    edges: 0,
    boundaries: 0,
};

// For C: a refusal's number, 0 for none; whether there is a region, and its frames; how many entries each list got.
#[repr(C)]
#[derive(Clone, Copy)]
pub struct Marks {
    pub refusal: u32,
    pub found: bool,
    pub start: u32,
    pub end: u32,
    pub nuclei: usize,
    pub extras: usize,
    pub edges: usize,
    pub boundaries: usize,
}

// What is found, with the number of an admitted call. A region that is not there has ends of 0.
fn told(m: Marked) -> Marks
    ensures { result ≡ marks_in m.region m }
{
    let (start, end) = m.region.map_or((0, 0), |r| (r.start, r.end));
    Marks {
        refusal: 0,
        found: m.region.is_some(),
        start,
        end,
        nuclei: m.nuclei,
        extras: m.extras,
        edges: m.edges,
        boundaries: m.boundaries,
    }
}

impl From<Result<Marked, Refusal>> for Marks {
    ghost from_gives = { λ r m. m ≡ marks_for r };

    fn from(r: Result<Marked, Refusal>) -> Marks {
        match r {
            Ok(m) => told(m),
            Err(refusal) => Marks {
                refusal: u32::from(refusal),
                ..told(UNMARKED)
            },
        }
    }
}

// Recovers the pitches that the tracker left out, and then repairs the joined track, so that recovered stretches are beside each
// other when their octaves are compared. Marks are bytes, as C lends those of vowels.
fn mark_pitches(db: &[f32], pitch: &mut [f32], vowel: &[u8], samples: &[i16], p: Settings)
    requires { (length db.now ≤ 2048) × (length pitch.old ≡ length db.now) × Pitches 40 2000 pitch.old }
    ensures { pitch.new ≡ repaired (recovered pitch.old samples.now
        (marks_of db.now p) vowel.now) }
{
    // A table and its part: each frame has an entry, which is written at its place; there is no heap.
    let mut speech = [0u8; MAX_FRAMES];
    speech_frames(db, p, &mut speech);
    recover_pitch(pitch, samples, &speech[..db.len()], vowel);
    repair_octaves(pitch);
}

// The tracks of an admitted take whose pitches are recovered and repaired; sonority may have another length. The result
// lists stand loose: the borrow checker does not cover a call that is lent two lists of a struct.
#[derive(Clone, Copy)]
struct Tracks<'a> {
    db: &'a [f32],
    pitch: &'a [f32],
    voiced: &'a [f32],
    sonority: &'a [f32],
    ghost alike: { (length db.now ≤ 2048) × (length pitch.now ≡ length db.now) × (length voiced.now ≡ length db.now) },
}

// The marks of a region: nuclei, then extra candidates and boundaries around them.
fn mark_region(
    t: Tracks<'_>,
    region: Region,
    p: Settings,
    frames: &mut [u32],
    strengths: &mut [f32],
    xframes: &mut [u32],
    xstrengths: &mut [f32],
    edges: &mut [u32],
    bounds: &mut [u32],
) -> Marked
    requires inside { (region.start ≤ region.end) × (region.end ≤ length t.db.now) }
    requires room { Room (length t.db.now)
        (lists_of frames.old strengths.old xframes.old xstrengths.old edges.old bounds.old) }
    ensures { MarkCall
        (reading_in t.entry.db.now t.entry.pitch.now t.entry.voiced.now t.entry.sonority.now p (Some region))
        (lists_of frames.old strengths.old xframes.old xstrengths.old
        edges.old bounds.old)
        (lists_of frames.new strengths.new xframes.new xstrengths.new
        edges.new bounds.new) (marks_for (Ok result)) }
{
    let a = region.start as usize;
    let b = region.end as usize;
    let n = nuclei::nuclei(t.db, t.pitch, a, b, p, frames, strengths);
    let x = extra_candidates(
        t.db,
        t.pitch,
        t.sonority,
        a,
        b,
        &frames[..n],
        p,
        xframes,
        xstrengths,
        edges,
    );
    let bs = boundaries_with(t.db, t.pitch, t.voiced, a, b, &frames[..n], p, bounds);
    Marked {
        region: Some(region),
        nuclei: n,
        extras: x.extras,
        edges: x.edges,
        boundaries: bs,
    }
}

// The marks of a take whose pitches are recovered and repaired.
fn mark_take(
    t: Tracks<'_>,
    p: Settings,
    frames: &mut [u32],
    strengths: &mut [f32],
    xframes: &mut [u32],
    xstrengths: &mut [f32],
    edges: &mut [u32],
    bounds: &mut [u32],
) -> Marked
    requires room { Room (length t.db.now)
        (lists_of frames.old strengths.old xframes.old xstrengths.old edges.old bounds.old) }
    ensures { MarkCall (reading_with t.entry.db.now t.entry.pitch.now t.entry.voiced.now t.entry.sonority.now p)
        (lists_of frames.old strengths.old xframes.old xstrengths.old
        edges.old bounds.old)
        (lists_of frames.new strengths.new xframes.new xstrengths.new
        edges.new bounds.new) (marks_for (Ok result)) }
{
    let Some(region) = speech_region(t.db, p) else {
        return UNMARKED;
    };
    mark_region(
        t, region, p, frames, strengths, xframes, xstrengths, edges, bounds,
    )
}

// The whole chain. A call is refused by the lowest number that applies, and then changes nothing; else pitches are
// written in any case, and the lists where there is a region.
pub fn chain(
    db: &[f32],
    pitch: &mut [f32],
    voiced: &[f32],
    sonority: &[f32],
    vowel: &[u8],
    samples: &[i16],
    p: Settings,
    frames: &mut [u32],
    strengths: &mut [f32],
    xframes: &mut [u32],
    xstrengths: &mut [f32],
    edges: &mut [u32],
    bounds: &mut [u32],
) -> Result<Marked, Refusal>
    ensures { ChainCall
        (take_of db.now pitch.old voiced.now sonority.now vowel.now
        samples.now p)
        (lists_of frames.old strengths.old xframes.old xstrengths.old
        edges.old bounds.old)
        (lists_of frames.new strengths.new xframes.new xstrengths.new
        edges.new bounds.new)
        pitch.new (marks_for result) }
{
    chain_refusal(
        db,
        pitch,
        voiced,
        sonority,
        vowel,
        samples.len(),
        p,
        frames.len(),
        strengths.len(),
        xframes.len(),
        xstrengths.len(),
        edges.len(),
        bounds.len(),
    )?;
    mark_pitches(db, pitch, vowel, samples, p);
    let t = Tracks {
        db,
        pitch,
        voiced,
        sonority,
    };
    Ok(mark_take(t, p, frames, strengths, xframes, xstrengths, edges, bounds))
}
