// The entries over plain lists that stand for a caller's lists of records: each is refused as these would be, by the room that they
// have. No take has more than 2,048 nuclei, so lists of that many entries stand for any.
// Tracks, lists and ends of a region are parameters of their own, as the C interface gives them; its lists of records come as two
// plain lists and the room that they have.
#![tactic(auto)]

ghost use Rattle.entries.specs.Stages.{answer_of, counted_of};
ghost use Rattle.chain.specs.Chain.{take_of, lists_of, marks_for};
ghost use Rattle.within.specs.Within.{Scratch, NucleiWithin, ExtrasWithin, ChainWithin};

use admit::MAX_FRAMES;
use admit::numbers::Refusal;
use chain::Marked;
use extra::Counts;
use region::Settings;

// The nuclei of start..end in two lists, refused as a list of room records would be.
pub fn nuclei_within(
    db: &[f32],
    pitch: &[f32],
    start: usize,
    end: usize,
    p: Settings,
    frames: &mut [u32],
    strengths: &mut [f32],
    room: usize,
) -> Result<usize, Refusal>
    requires { Scratch frames.old strengths.old }
    ensures { NucleiWithin db.now pitch.now start end p room frames.new
        strengths.new (answer_of result) }
{
    let k = room.min(MAX_FRAMES);
    entries::stages::nuclei(
        db,
        pitch,
        start,
        end,
        p,
        &mut frames[..k],
        &mut strengths[..k],
    )
}

// The extra candidates around given nuclei in two lists, refused as a list of room records would be.
pub fn extras_within(
    db: &[f32],
    pitch: &[f32],
    sonority: &[f32],
    start: usize,
    end: usize,
    nuclei: &[u32],
    p: Settings,
    edges: &mut [u32],
    frames: &mut [u32],
    strengths: &mut [f32],
    room: usize,
) -> Result<Counts, Refusal>
    requires { Scratch frames.old strengths.old }
    ensures { ExtrasWithin db.now pitch.now sonority.now start end
        nuclei.now p room frames.new strengths.new edges.old
        edges.new (counted_of result) }
{
    let k = room.min(MAX_FRAMES);
    entries::stages::extras(
        db,
        pitch,
        sonority,
        start,
        end,
        nuclei,
        p,
        &mut frames[..k],
        &mut strengths[..k],
        edges,
    )
}

// The chain over plain lists, refused as lists of room and xroom records would be.
pub fn chain_within(
    db: &[f32],
    pitch: &mut [f32],
    voiced: &[f32],
    sonority: &[f32],
    vowel: &[u8],
    samples: &[i16],
    p: Settings,
    edges: &mut [u32],
    bounds: &mut [u32],
    frames: &mut [u32],
    strengths: &mut [f32],
    xframes: &mut [u32],
    xstrengths: &mut [f32],
    room: usize,
    xroom: usize,
) -> Result<Marked, Refusal>
    requires { Scratch frames.old strengths.old × Scratch xframes.old xstrengths.old }
    ensures { ChainWithin
        (take_of db.now pitch.old voiced.now sonority.now vowel.now
        samples.now p) room xroom edges.old bounds.old
        (lists_of frames.new strengths.new xframes.new xstrengths.new
        edges.new bounds.new)
        pitch.new (marks_for result) }
{
    let k = room.min(MAX_FRAMES);
    let x = xroom.min(MAX_FRAMES);
    chain::chain(
        db,
        pitch,
        voiced,
        sonority,
        vowel,
        samples,
        p,
        &mut frames[..k],
        &mut strengths[..k],
        &mut xframes[..x],
        &mut xstrengths[..x],
        edges,
        bounds,
    )
}
