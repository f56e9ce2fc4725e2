// The chain, and the listing of a take file.
use super::asked::Input;
use super::out::Out;
use super::tables::{ROOM, UNTOUCHED, first, first_mut, floats_in, part, rest, samples_in};
use chain::Marks;
use floats::bits::from_bits;
use take::text::Page;

// The refusal, the region and the four counts.
fn put_found(found: Marks, out: &mut Out<'_>) {
    out.number(1, u64::from(found.refusal));
    out.number(1, found.found as u64);
    out.fields(&[found.start, found.end]);
    for count in [found.nuclei, found.extras, found.edges, found.boundaries] {
        out.number(4, count as u64);
    }
}

// The chain, with lists of its own. Its pitches are written, so they have a table of their own.
pub fn chain(input: Input<'_>, out: &mut Out<'_>) {
    let marks = input.bytes_after(14, input.total(7, 11));
    let vowel = input.size(11);
    let n = input.size(12);
    let samples = samples_in(rest(marks, vowel), n);
    let mut pitch = floats_in(input.bytes_after(14, input.size(7)));
    let mut frames = [UNTOUCHED; ROOM];
    let mut strengths = [from_bits(UNTOUCHED); ROOM];
    let mut xframes = [UNTOUCHED; ROOM];
    let mut xstrengths = [from_bits(UNTOUCHED); ROOM];
    let mut edges = [UNTOUCHED; ROOM];
    let mut bounds = [UNTOUCHED; ROOM];
    let pitch = first_mut(&mut pitch, input.size(8));
    let frames = first_mut(&mut frames, input.size(3));
    let strengths = first_mut(&mut strengths, input.size(3));
    let xframes = first_mut(&mut xframes, input.size(4));
    let xstrengths = first_mut(&mut xstrengths, input.size(4));
    let edges = first_mut(&mut edges, input.size(5));
    let bounds = first_mut(&mut bounds, input.size(6));
    let found = Marks::from(chain::chain(
        input.track(7, 14, 7),
        pitch,
        input.track(7, 14, 9),
        input.track(7, 14, 10),
        part(marks, 0, vowel),
        first(&samples, n),
        input.settings(),
        frames,
        strengths,
        xframes,
        xstrengths,
        edges,
        bounds,
    ));
    put_found(found, out);
    out.fields(pitch);
    out.nuclei(frames, strengths);
    out.nuclei(xframes, xstrengths);
    out.fields(edges);
    out.fields(bounds);
}

// What `marks` prints for a take file.
pub fn listing(file: &[u8], out: &mut Out<'_>) {
    let mut page = Page::new();
    report::marks_of(file, &mut page);
    out.bytes(page.as_slice());
}
