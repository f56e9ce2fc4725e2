// The lines of a listing, written to a page one after another.
// A page is lent and not returned: it has room for every listing, and one that is returned is copied by each caller.
ghost use Rattle.std.specs.Prelude.{◌≡◌, cond, [], ◌++◌, ◌+◌, ◌≤◌, length};
ghost use Rattle.take.specs.Listing.{marks_told, repitched, pitch_word, frame_line, mark_line, frame_lines, mark_lines, pitch_lines, region_line, listing, refused_listing};

use super::text::Page;
use super::told::Told;

// The bytes of the longest listing of a take.
pub const LARGEST_LISTING: usize = 237617;

use region::Region;

// A word and a number.
fn frame_line<const N: usize>(word: &[u8], frame: u32, page: &mut Page<N>)
    requires { length page.old + length (frame_line word.now frame) ≤ N }
    ensures { page.new ≡ page.old ++ frame_line word.now frame }
{
    page.text(word);
    page.number(frame);
    page.byte(b'\n');
}

// A word, a frame and the bits of an f32.
fn mark_line<const N: usize>(word: &[u8], frame: u32, x: f32, page: &mut Page<N>)
    requires { length page.old + length (mark_line word.now frame x) ≤ N }
    ensures { page.new ≡ page.old ++ mark_line word.now frame x }
{
    page.text(word);
    page.number(frame);
    page.bits(x);
    page.byte(b'\n');
}

// A line for each frame.
fn frame_lines<const N: usize>(word: &[u8], frames: &[u32], page: &mut Page<N>)
    requires { length page.old + length (frame_lines word.now frames.now) ≤ N }
    ensures { page.new ≡ page.old ++ frame_lines word.now frames.now }
{
    for frame in frames {
        frame_line(word, *frame, page);
    }
}

// A line for each frame with its strength.
fn mark_lines<const N: usize>(word: &[u8], frames: &[u32], strengths: &[f32], page: &mut Page<N>)
    requires { length page.old + length (mark_lines word.now frames.now strengths.now) ≤ N }
    ensures { page.new ≡ page.old ++ mark_lines word.now frames.now strengths.now }
{
    for (frame, strength) in frames.iter().zip(strengths) {
        mark_line(word, *frame, *strength, page);
    }
}

// Whether a pitch has other bits than it was given with.
fn is_changed(given: f32, left: f32) -> bool
    ensures { result ≡ repitched given left }
{
    floats::bits::to_bits(given) != floats::bits::to_bits(left)
}

// The line of a frame whose pitch changed; no line where it did not.
fn pitch_line<const N: usize>(given: f32, left: f32, frame: u32, page: &mut Page<N>)
    requires { length page.old + length (cond (repitched given left) (mark_line pitch_word frame left) []) ≤ N }
    ensures { page.new ≡ page.old ++ cond (repitched given left) (mark_line pitch_word frame left) [] }
{
    if is_changed(given, left) {
        mark_line(b"pitch", frame, left, page);
    }
}

// A line for each frame whose pitch changed.
fn pitch_lines<const N: usize>(t: Told<'_>, page: &mut Page<N>)
    requires { length page.old + length (pitch_lines t.given.now t.left.now) ≤ N }
    ensures { page.new ≡ page.old ++ pitch_lines t.entry.given.now t.entry.left.now }
{
    for (i, (given, left)) in t.given.iter().zip(t.left).enumerate() {
        pitch_line(*given, *left, i as u32, page);
    }
}

// The region's two ends, or that there is none.
#[tactic(auto, unfolding(crate::specs::Listing::region_line))]
fn region_line<const N: usize>(region: Option<Region>, page: &mut Page<N>)
    requires { length page.old + length (region_line region) ≤ N }
    ensures { page.new ≡ page.old ++ region_line region }
{
    match region {
        Some(r) => {
            page.text(b"region");
            page.number(r.start);
            page.number(r.end);
            page.byte(b'\n');
        }
        None => page.text(b"region none\n"),
    }
}

// Leaves the listing on a page, and nothing else.
#[tactic(auto, unfolding(crate::specs::Listing::listing))]
pub fn listing<const N: usize>(t: Told<'_>, page: &mut Page<N>)
    requires { length (listing (marks_told t)) ≤ N }
    ensures { page.new ≡ listing (marks_told t.entry) }
{
    page.clear();
    pitch_lines(t, page);
    region_line(t.region, page);
    mark_lines(b"nucleus", t.frames, t.strengths, page);
    mark_lines(b"extra", t.extra_frames, t.extra_strengths, page);
    frame_lines(b"extra-edge", t.edges, page);
    frame_lines(b"boundary", t.boundaries, page);
}

// The listing of a refused take likewise, by the refusal's number.
pub fn refused<const N: usize>(number: u32, page: &mut Page<N>)
    requires { length (refused_listing number) ≤ N }
    ensures { page.new ≡ refused_listing number }
{
    page.clear();
    frame_line(b"refused", number, page);
}
