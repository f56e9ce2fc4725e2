// Kinds whose answer is a number or two: floor, threshold, region, extrema between two frames, the run of a frame, the estimate
// of a window.
use super::asked::Input;
use super::out::Out;
use super::tables::{first, samples_in};
use arrayvec::ArrayVec;
use floats::bits::{f64_to_bits, to_bits};
use runs::voiced::Span;
use smooth::extrema::{Extremum, Part};

// What is written where two frames are none of the level's: no frame, and neither yes nor no.
const NO_FRAME: u64 = 0xffff_ffff;

const NO_ANSWER: u64 = 255;

// The part of a level between the two frames that an input begins with, where these are frames. An `if` and no `then`:
// its closure would have to say again what is tested.
fn part_of<'a>(s: &'a [f32], input: Input<'_>) -> Option<Part<'a>> {
    let a = input.size(0);
    let b = input.size(1);
    if a <= b && b < s.len() {
        Some(Part { s, a, b })
    } else {
        None
    }
}

pub fn middle(kind: Extremum, input: Input<'_>, out: &mut Out<'_>) {
    let part = part_of(input.frames_from(2), input);
    out.number(4, part.map_or(NO_FRAME, |p| p.extremum_middle(kind) as u64));
}

pub fn shallow(input: Input<'_>, out: &mut Out<'_>) {
    let part = part_of(input.frames_from(3), input);
    let dip = input.float(2);
    out.number(1, part.map_or(NO_ANSWER, |p| u64::from(p.is_shallow(dip))));
}

pub fn floor(input: Input<'_>, out: &mut Out<'_>) {
    let floor = region::floor_db(input.frames_from(0));
    out.option(4, floor.map(|x| u64::from(to_bits(x))));
}

pub fn threshold(input: Input<'_>, out: &mut Out<'_>) {
    let x = region::speech_threshold(input.frames_from(1), input.settings());
    out.fields(&[x]);
}

pub fn region(input: Input<'_>, out: &mut Out<'_>) {
    let found = region::speech_region(input.frames_from(1), input.settings());
    out.option(
        8,
        found.map(|r| (u64::from(r.start) << 32) | u64::from(r.end)),
    );
}

// The runs that an input has after its first field; none where there are more than a take has frames.
fn runs_in(input: Input<'_>) -> ArrayVec<Span, 2048> {
    let mut runs = ArrayVec::new();
    for k in 0..input.bytes.len() / 8 {
        // A test and no `take(2048)` above: that each push has room was not proved with it.
        if runs.is_full() {
            return ArrayVec::new();
        }
        runs.push(Span {
            first: input.word(2 * k + 1),
            last: input.word(2 * k + 2),
        });
    }
    runs
}

pub fn run_of(input: Input<'_>, out: &mut Out<'_>) {
    let found = runs::near::run_of(&runs_in(input), input.word(0));
    out.option(4, found.map(|f| u64::from(f.number)));
}

pub fn estimate(input: &[u8], out: &mut Out<'_>) {
    let n = input.len() / 2;
    let samples = samples_in(input, n);
    let estimate = nsdf::period::period_hz(first(&samples, n), 256);
    out.option(8, estimate.map(f64_to_bits));
}
