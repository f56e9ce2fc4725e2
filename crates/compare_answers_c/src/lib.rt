// What the judge links: every answer under one C name, and each stage by itself to be timed. A slice is a pointer and a
// length there. Whoever calls a stage keeps to its `requires`; the chain has none. Settings are
// the defaults.
// That a track has at most 2,048 frames is a `requires` and no type: C lends a pointer and a length.
#![tactic(auto)]

ghost use Rattle.std.specs.Prelude.{◌≡◌, ◌+◌, ◌≤◌, length};
ghost use Rattle.lists.specs.Sorted.{StrictlyRises};
ghost use Rattle.repair.specs.Repair.{Pitches};

use arrayvec::ArrayVec;
use chain::Marks;
use region::default_settings;
use runs::voiced::Span;
use smooth::extrema::{Extremum, local_extrema};

// The answer to an input of a kind, at the front of out; returns its length.
#[unsafe(no_mangle)]
pub extern "C" fn judge_answer(kind: u32, input: &[u8], out: &mut [u8]) -> usize {
    compare_answers::answer((kind % 256) as u8, input, out)
}

// Floor, threshold and region; the start times 2^32 plus the end, 0 for no region, as C gets a number.
#[unsafe(no_mangle)]
pub extern "C" fn judge_region(db: &[f32]) -> u64
    requires { length db.now ≤ 2048 }
{
    region::speech_region(db, default_settings()).map_or(
        0,
        |r| (u64::from(r.start) << 32) | u64::from(r.end),
    )
}

#[unsafe(no_mangle)]
pub extern "C" fn judge_level(db: &[f32], out: &mut [f32])
    requires { (length db.now ≤ length out.old) × (length db.now ≤ 2048) }
{
    smooth::level::smoothed_db(db, out);
}

// Writes a list to the front of another, as far as that has room, and returns how many entries that are.
fn put_list(list: &[u32], out: &mut [u32]) -> usize {
    let n = list.len().min(out.len());
    out[..n].copy_from_slice(&list[..n]);
    n
}

// Maxima, then minima over them in the same list; returns the count of the minima.
#[unsafe(no_mangle)]
pub extern "C" fn judge_extrema(s: &[f32], out: &mut [u32]) -> usize
    requires { (length s.now ≤ length out.old) × (length s.now ≤ 2048) }
{
    let mut found: ArrayVec<u32, 2048> = ArrayVec::new();
    local_extrema(s, 0, s.len(), Extremum::Max, &mut found);
    put_list(&found, out);
    local_extrema(s, 0, s.len(), Extremum::Min, &mut found);
    put_list(&found, out)
}

// Writes the first and last frames of runs to two lists, and returns how many they are.
fn put_spans(runs: &[Span], a: &mut [u32], b: &mut [u32]) -> usize {
    for (run, (first, last)) in runs.iter().zip(a.iter_mut().zip(b.iter_mut())) {
        *first = run.first;
        *last = run.last;
    }
    runs.len()
}

// Long runs, then syllable runs, then dropouts in the same lists; returns the count of the dropouts.
#[unsafe(no_mangle)]
pub extern "C" fn judge_runs(pitch: &[f32], a: &mut [u32], b: &mut [u32]) -> usize
    requires { (length pitch.now ≤ 2048) × (length pitch.now ≤ length a.old) × (length pitch.now ≤ length b.old) }
{
    put_spans(&runs::voiced::long_runs(pitch), a, b);
    put_spans(&runs::syllables::syllable_runs(pitch), a, b);
    put_spans(&runs::syllables::dropouts(pitch), a, b)
}

// Octave repair.
#[unsafe(no_mangle)]
pub extern "C" fn judge_repair(pitch: &mut [f32])
    requires { (length pitch.old ≤ 2048) × Pitches 40 2000 pitch.old }
{
    repair::repair_octaves(pitch);
}

// Recovered pitch.
#[unsafe(no_mangle)]
pub extern "C" fn judge_recover(pitch: &mut [f32], samples: &[i16], speech: &[u8], vowel: &[u8])
    requires { length pitch.old ≤ 2048 }
{
    recover::recover_pitch(pitch, samples, speech, vowel);
}

// Nuclei of a region: how many; their frames and strengths.
#[unsafe(no_mangle)]
pub extern "C" fn judge_nuclei(
    db: &[f32],
    pitch: &[f32],
    start: usize,
    end: usize,
    frames: &mut [u32],
    strengths: &mut [f32],
) -> usize
    requires { (length db.now ≤ 2048) × (length pitch.now ≡ length db.now) × (end ≤ length db.now)
        × (length db.now ≤ length frames.old) × (length db.now ≤ length strengths.old) }
{
    nuclei::nuclei(db, pitch, start, end, default_settings(), frames, strengths)
}

// Boundaries of a region around given nuclei: how many; their frames.
#[unsafe(no_mangle)]
pub extern "C" fn judge_boundaries(
    db: &[f32],
    pitch: &[f32],
    voiced: &[f32],
    start: usize,
    end: usize,
    nuclei: &[u32],
    out: &mut [u32],
) -> usize
    requires start_le_end { (start ≤ end) × (end ≤ length db.now) × (length db.now ≤ 2048) × (length pitch.now ≡ length db.now)
        × (length voiced.now ≡ length db.now) }
    requires strictly_rises { StrictlyRises 0 (length db.now) nuclei.now }
    requires db_in_bounds { length db.now + 1 ≤ length out.old }
{
    boundaries::boundaries_with(
        db,
        pitch,
        voiced,
        start,
        end,
        nuclei,
        default_settings(),
        out,
    )
}

// Extra candidates of a region beside given nuclei: how many, and how many edges, added.
#[unsafe(no_mangle)]
pub extern "C" fn judge_extras(
    db: &[f32],
    pitch: &[f32],
    sonority: &[f32],
    start: usize,
    end: usize,
    nuclei: &[u32],
    frames: &mut [u32],
    strengths: &mut [f32],
    edges: &mut [u32],
) -> usize
    requires db_len_bound { (length db.now ≤ 2048) × (length pitch.now ≡ length db.now) × (start ≤ end) × (end ≤ length db.now)
        × (length db.now ≤ length frames.old) × (length db.now ≤ length strengths.old)
        × (length db.now ≤ length edges.old) }
    requires strictly_rises { StrictlyRises 0 (length db.now) nuclei.now }
{
    let c = extra::extra_candidates(
        db,
        pitch,
        sonority,
        start,
        end,
        nuclei,
        default_settings(),
        frames,
        strengths,
        edges,
    );
    c.extras
}

// The whole chain: its refusal number.
#[unsafe(no_mangle)]
pub extern "C" fn judge_chain(
    db: &[f32],
    pitch: &mut [f32],
    voiced: &[f32],
    sonority: &[f32],
    vowel: &[u8],
    samples: &[i16],
    frames: &mut [u32],
    strengths: &mut [f32],
    xframes: &mut [u32],
    xstrengths: &mut [f32],
    edges: &mut [u32],
    bounds: &mut [u32],
) -> u32 {
    let m = Marks::from(chain::chain(
        db,
        pitch,
        voiced,
        sonority,
        vowel,
        samples,
        default_settings(),
        frames,
        strengths,
        xframes,
        xstrengths,
        edges,
        bounds,
    ));
    m.refusal
}
