// Kinds whose answer is a track, marks, or a count and lists, of as many entries as the input has frames.
ghost use Rattle.std.specs.Prelude.{◌≤◌, length};

use super::asked::Input;
use super::out::Out;
use super::tables::{ROOM, UNTOUCHED, first};
use arrayvec::ArrayVec;
use floats::bits::from_bits;
use runs::voiced::{MOST_RUNS, Span};
use smooth::extrema::Extremum;

pub fn level(input: Input<'_>, out: &mut Out<'_>) {
    let db = input.frames_from(0);
    let mut s = [from_bits(UNTOUCHED); ROOM];
    smooth::level::smoothed_db(db, &mut s);
    out.fields(first(&s, db.len()));
}

pub fn speech(input: Input<'_>, out: &mut Out<'_>) {
    let db = input.frames_from(1);
    let mut marks = [0xeeu8; ROOM];
    region::speech_frames(db, input.settings(), &mut marks);
    out.bytes(first(&marks, db.len()));
}

pub fn extrema(kind: Extremum, input: Input<'_>, out: &mut Out<'_>) {
    let s = input.frames_from(2);
    let mut found: ArrayVec<u32, 2048> = ArrayVec::new();
    smooth::extrema::local_extrema(s, input.size(0), input.size(1), kind, &mut found);
    out.number(4, found.len() as u64);
    out.column(&found, s.len(), |frame| frame);
}

pub fn voiced_runs(input: Input<'_>, out: &mut Out<'_>) {
    let pitch = input.frames_from(0);
    let runs = runs::voiced::voiced_runs(pitch);
    out.number(4, runs.len() as u64);
    out.column(&runs, pitch.len(), |run| run.first);
    out.column(&runs, pitch.len(), |run| run.last);
    out.column(&runs, pitch.len(), |run| run.size);
}

// The runs of a track, or the gaps between them: how many they are, and their first and last frames.
pub fn spans<F>(find: F, input: Input<'_>, out: &mut Out<'_>)
where
    F: FnOnce(&[f32]) -> ArrayVec<Span, MOST_RUNS>,
    requires { (pitch : _) → length pitch.now ≤ 2048 → F.pre find pitch }
{
    let pitch = input.frames_from(0);
    let runs = find(pitch);
    out.number(4, runs.len() as u64);
    out.column(&runs, pitch.len(), |run| run.first);
    out.column(&runs, pitch.len(), |run| run.last);
}
