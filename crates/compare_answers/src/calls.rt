// Kinds that are entries of single stages. An input has its numbers first, then its tracks; an answer has its refusal number
// first, then counts, then what was lent, as long as it was lent.
use super::asked::Input;
use super::out::Out;
use super::tables::{ROOM, UNTOUCHED, first, first_mut, floats_in, part, rest, samples_in};
use admit::numbers::{Refusal, number};
use entries::stages::{Answer, Counted, Spanned};
use floats::bits::from_bits;

// A refusal. The judge's answers have refusals as numbers.
fn put_refusal(refusal: u32, out: &mut Out<'_>) {
    out.number(1, u64::from(refusal));
}

// A refusal and a count.
fn put_count(r: Result<usize, Refusal>, out: &mut Out<'_>) {
    let answer = Answer::from(r);
    put_refusal(answer.refusal, out);
    out.number(4, answer.count as u64);
}

pub fn repair(bytes: &[u8], out: &mut Out<'_>) {
    let mut table = floats_in(bytes);
    let pitch = first_mut(&mut table, bytes.len() / 4);
    put_refusal(number(entries::stages::repair(pitch)), out);
    out.fields(pitch);
}

pub fn recovery(input: Input<'_>, out: &mut Out<'_>) {
    let mut table = floats_in(rest(input.bytes, 20));
    let pitch = first_mut(&mut table, input.size(0));
    let marks = input.bytes_after(5, input.size(0));
    let speech = input.size(1);
    let vowel = input.size(2);
    let n = input.size(3);
    let samples = samples_in(rest(marks, speech.wrapping_add(vowel)), n);
    let answer = entries::stages::recover(
        pitch,
        first(&samples, n),
        part(marks, 0, speech),
        part(marks, speech, vowel),
    );
    put_refusal(number(answer), out);
    out.fields(pitch);
}

// The speech mark of each frame.
pub fn speech(input: Input<'_>, out: &mut Out<'_>) {
    let mut table = [0xeeu8; ROOM];
    let marks = first_mut(&mut table, input.size(3));
    let found = entries::stages::speech_marks(input.floats_from(4), input.settings(), marks);
    put_count(found, out);
    out.bytes(marks);
}

// The refusal, whether there is a region, and its ends.
pub fn region(input: Input<'_>, out: &mut Out<'_>) {
    let found = Spanned::from(entries::stages::region(input.floats_from(3), input.settings()));
    put_refusal(found.refusal, out);
    out.number(1, found.found as u64);
    out.fields(&[found.start, found.end]);
}

// The nuclei of a region.
pub fn nuclei(input: Input<'_>, out: &mut Out<'_>) {
    let mut frames = [UNTOUCHED; ROOM];
    let mut strengths = [from_bits(UNTOUCHED); ROOM];
    let frames = first_mut(&mut frames, input.size(5));
    let strengths = first_mut(&mut strengths, input.size(5));
    let found = entries::stages::nuclei(
        input.track(6, 8, 6),
        input.track(6, 8, 7),
        input.size(3),
        input.size(4),
        input.settings(),
        frames,
        strengths,
    );
    put_count(found, out);
    out.nuclei(frames, strengths);
}

// The extra candidates of a region and their edges.
pub fn extras(input: Input<'_>, out: &mut Out<'_>) {
    let nuclei = input.words_from(11usize.wrapping_add(input.total(7, 10)));
    let mut frames = [UNTOUCHED; ROOM];
    let mut strengths = [from_bits(UNTOUCHED); ROOM];
    let mut edges = [UNTOUCHED; ROOM];
    let frames = first_mut(&mut frames, input.size(5));
    let strengths = first_mut(&mut strengths, input.size(5));
    let edges = first_mut(&mut edges, input.size(6));
    let found = Counted::from(entries::stages::extras(
        input.track(7, 11, 7),
        input.track(7, 11, 8),
        input.track(7, 11, 9),
        input.size(3),
        input.size(4),
        first(&nuclei, input.size(10)),
        input.settings(),
        frames,
        strengths,
        edges,
    ));
    put_refusal(found.refusal, out);
    out.number(4, found.extras as u64);
    out.number(4, found.edges as u64);
    out.nuclei(frames, strengths);
    out.fields(edges);
}

// The boundaries of a region by what is given to an entry of boundaries: the tracks, the region, the nuclei and a list. `input` is
// from the region on.
fn boundaries_by<F>(entry: F, input: Input<'_>, out: &mut Out<'_>)
where
    F: FnOnce(&[f32], &[f32], &[f32], usize, usize, &[u32], &mut [u32]) -> Result<usize, Refusal>,
    requires { F.IsAlwaysCallable entry }
{
    let nuclei = input.words_from(7usize.wrapping_add(input.total(3, 6)));
    let mut list = [UNTOUCHED; ROOM];
    let list = first_mut(&mut list, input.size(2));
    let found = entry(
        input.track(3, 7, 3),
        input.track(3, 7, 4),
        input.track(3, 7, 5),
        input.size(0),
        input.size(1),
        first(&nuclei, input.size(6)),
        list,
    );
    put_count(found, out);
    out.fields(list);
}

pub fn boundaries_with(input: Input<'_>, out: &mut Out<'_>) {
    let p = input.settings();
    boundaries_by(
        |db, pitch, voiced, start, end, nuclei, list| {
            entries::stages::boundaries_with(db, pitch, voiced, start, end, nuclei, p, list)
        },
        input.after_settings(),
        out,
    );
}

pub fn boundaries(input: Input<'_>, out: &mut Out<'_>) {
    boundaries_by(entries::stages::boundaries, input, out);
}
