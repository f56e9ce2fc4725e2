// The stages one by one. An entry first asks whether what it is given is admitted; if it is not, it answers the refusal and
// leaves every lent track and list as it was. For C callers each answer stands in a record of numbers.
// Tracks, lists and ends of a region are parameters of their own, as the C interface gives them.
ghost use Rattle.admit.specs.Numbers.{number_of};
ghost use Rattle.entries.specs.Stages.{answer_of, spanned_of, counted_of, MarksCall, RegionCall, RepairCall, RecoverCall, NucleiCall, ExtrasCall, BoundariesWithCall, BoundariesCall};
ghost use Rattle.std.specs.Prelude.{◌≡◌};

use admit::numbers::Refusal;
use admit::{
    boundaries_with_refusal, extras_refusal, nuclei_refusal, recovery_refusal, region_refusal,
    repair_refusal, speech_refusal,
};
use extra::{Counts, extra_candidates};
use recover::recover_pitch;
use region::{Region, Settings, default_settings, speech_frames, speech_region};
use repair::repair_octaves;

// For C: the refusal number, 0 for none, and how many entries were written.
#[repr(C)]
#[derive(Clone, Copy)]
pub struct Answer {
    pub refusal: u32,
    pub count: usize,
}

// For C: the refusal number, and the region from start to before end, where one is found. Where there is none, and after a
// refusal, its ends are 0.
#[repr(C)]
#[derive(Clone, Copy)]
pub struct Spanned {
    pub refusal: u32,
    pub found: bool,
    pub start: u32,
    pub end: u32,
}

// For C: the refusal number, and how many extra candidates and edges were written.
#[repr(C)]
#[derive(Clone, Copy)]
pub struct Counted {
    pub refusal: u32,
    pub extras: usize,
    pub edges: usize,
}

impl From<Result<usize, Refusal>> for Answer {
    ghost from_gives = { λ r a. a ≡ answer_of r };

    fn from(r: Result<usize, Refusal>) -> Answer {
        match r {
            Ok(count) => Answer { refusal: 0, count },
            Err(refusal) => Answer {
                refusal: u32::from(refusal),
                count: 0,
            },
        }
    }
}

const NO_REGION: Spanned = Spanned {
    refusal: 0,
    found: false,
    start: 0,
    end: 0,
};

impl From<Result<Option<Region>, Refusal>> for Spanned {
    ghost from_gives = { λ r a. a ≡ spanned_of r };

    #[tactic(auto, unfolding(crate::specs::Stages::spanned))]
    fn from(r: Result<Option<Region>, Refusal>) -> Spanned {
        match r {
            Ok(Some(region)) => Spanned {
                found: true,
                start: region.start,
                end: region.end,
                ..NO_REGION
            },
            Ok(None) => NO_REGION,
            Err(refusal) => Spanned {
                refusal: u32::from(refusal),
                ..NO_REGION
            },
        }
    }
}

impl From<Result<Counts, Refusal>> for Counted {
    ghost from_gives = { λ r a. a ≡ counted_of r };

    fn from(r: Result<Counts, Refusal>) -> Counted {
        match r {
            Ok(counts) => Counted {
                refusal: 0,
                extras: counts.extras,
                edges: counts.edges,
            },
            Err(refusal) => Counted {
                refusal: u32::from(refusal),
                extras: 0,
                edges: 0,
            },
        }
    }
}

// Writes 1 for each frame of speech and 0 for each other one, and answers how many.
pub fn speech_marks(db: &[f32], p: Settings, marks: &mut [u8]) -> Result<usize, Refusal>
    ensures { MarksCall db.now p marks.old marks.new (answer_of result) }
{
    speech_refusal(db, p, marks.len())?;
    speech_frames(db, p, marks);
    Ok(db.len())
}

// Finds the region.
pub fn region(db: &[f32], p: Settings) -> Result<Option<Region>, Refusal>
    ensures { RegionCall db.now p (spanned_of result) }
{
    region_refusal(db, p)?;
    Ok(speech_region(db, p))
}

// Puts octave errors right in place.
pub fn repair(pitch: &mut [f32]) -> Result<(), Refusal>
    ensures { RepairCall pitch.old pitch.new (number_of result) }
{
    repair_refusal(pitch)?;
    repair_octaves(pitch);
    Ok(())
}

// Gives pitches to periodic stretches of speech without one, in place.
pub fn recover(
    pitch: &mut [f32],
    samples: &[i16],
    speech: &[u8],
    vowel: &[u8],
) -> Result<(), Refusal>
    ensures { RecoverCall samples.now speech.now vowel.now pitch.old
        pitch.new (number_of result) }
{
    recovery_refusal(pitch, samples.len(), speech, vowel)?;
    recover_pitch(pitch, samples, speech, vowel);
    Ok(())
}

// Writes the frames and strengths of the nuclei in start..end, and answers how many.
pub fn nuclei(
    db: &[f32],
    pitch: &[f32],
    start: usize,
    end: usize,
    p: Settings,
    frames: &mut [u32],
    strengths: &mut [f32],
) -> Result<usize, Refusal>
    ensures { NucleiCall db.now pitch.now start end p frames.old frames.new
        strengths.old strengths.new (answer_of result) }
{
    nuclei_refusal(db, pitch, start, end, p, frames.len(), strengths.len())?;
    Ok(nuclei::nuclei(db, pitch, start, end, p, frames, strengths))
}

// Writes the frames and strengths of the extra candidates, and their edges, and answers how many. A sonority of another
// length than the track gives none.
pub fn extras(
    db: &[f32],
    pitch: &[f32],
    sonority: &[f32],
    start: usize,
    end: usize,
    nuclei: &[u32],
    p: Settings,
    frames: &mut [u32],
    strengths: &mut [f32],
    edges: &mut [u32],
) -> Result<Counts, Refusal>
    ensures { ExtrasCall db.now pitch.now sonority.now start end nuclei.now p
        frames.old frames.new strengths.old strengths.new edges.old
        edges.new (counted_of result) }
{
    extras_refusal(
        db,
        pitch,
        sonority,
        start,
        end,
        nuclei,
        p,
        frames.len(),
        strengths.len(),
        edges.len(),
    )?;
    Ok(extra_candidates(
        db, pitch, sonority, start, end, nuclei, p, frames, strengths, edges,
    ))
}

// Writes the boundaries of start..end under given settings, and answers how many.
pub fn boundaries_with(
    db: &[f32],
    pitch: &[f32],
    voiced: &[f32],
    start: usize,
    end: usize,
    nuclei: &[u32],
    p: Settings,
    out: &mut [u32],
) -> Result<usize, Refusal>
    ensures { BoundariesWithCall db.now pitch.now voiced.now start end
        nuclei.now p out.old out.new (answer_of result) }
{
    boundaries_with_refusal(db, pitch, voiced, start, end, nuclei, p, out.len())?;
    Ok(boundaries::boundaries_with(db, pitch, voiced, start, end, nuclei, p, out))
}

// Writes the boundaries of start..end under the defaults, and answers how many: an entry of its own, as in C.
pub fn boundaries(
    db: &[f32],
    pitch: &[f32],
    voiced: &[f32],
    start: usize,
    end: usize,
    nuclei: &[u32],
    out: &mut [u32],
) -> Result<usize, Refusal>
    ensures { BoundariesCall db.now pitch.now voiced.now start end nuclei.now
        out.old out.new (answer_of result) }
{
    boundaries_with(
        db,
        pitch,
        voiced,
        start,
        end,
        nuclei,
        default_settings(),
        out,
    )
}
