// What the program `marks` prints, on bytes: a take file in, its listing out.
// That a track has at most 2,048 frames is a `requires` and no type where tracks are lent to be written; so is that a file is
// as long as its head says: it is `take_refusal` that finds both, before the tracks are there.
#![tactic(auto)]

ghost use Rattle.std.specs.Prelude.{◌≡◌, ◌+◌, ◌*◌, ◌≤◌, [], length};
ghost use Rattle.chain.specs.Chain.{take_of, lists_of, chain_of};
ghost use Rattle.take.specs.File.{frame_count, take_in};
ghost use Rattle.report.specs.Answered.{left_in};
ghost use Rattle.report.specs.Shown.{text_of, unsampled, printed, shown, Fitting};

use answered::Answered;
use region::Settings;
use take::file::{frames_in, read_take, read_track, take_refusal};
use take::listing::{LARGEST_LISTING, listing, refused};
use take::text::Page;
use take::told::Told;

mod answered;

// Leaves on a page the listing of what a call of the chain answered, or that it refused.
fn show(given: &[f32], call: Answered<'_>, page: &mut Page<LARGEST_LISTING>)
    requires { length given.now ≡ length call.pitch.now }
    ensures { page.new ≡ shown given.now (left_in call.entry) }
{
    match call.answer {
        Ok(m) => {
            let a = m.nuclei.min(call.frames.len());
            let b = m.extras.min(call.xframes.len());
            let c = m.edges.min(call.edges.len());
            let d = m.boundaries.min(call.bounds.len());
            let told = Told {
                given,
                left: call.pitch,
                region: m.region,
                frames: &call.frames[..a],
                strengths: &call.strengths[..a],
                extra_frames: &call.xframes[..b],
                extra_strengths: &call.xstrengths[..b],
                edges: &call.edges[..c],
                boundaries: &call.bounds[..d],
            };
            listing(told, page);
        }
        Err(refusal) => refused(u32::from(refusal), page),
    }
}

// Runs the chain without samples on lent tracks and result lists, and leaves the listing on a page.
// What is written is lent one by one, here and below: a call that is lent two lists of one struct is refused; what is only
// read goes with it, as the chain takes it.
fn list_marks(
    given: &[f32],
    db: &[f32],
    pitch: &mut [f32],
    voiced: &[f32],
    sonority: &[f32],
    vowel: &[u8],
    p: Settings,
    frames: &mut [u32],
    strengths: &mut [f32],
    xframes: &mut [u32],
    xstrengths: &mut [f32],
    edges: &mut [u32],
    bounds: &mut [u32],
    page: &mut Page<LARGEST_LISTING>,
)
    requires given_len { (length given.now ≡ length pitch.old)
        × Fitting (length pitch.old)
        (lists_of frames.old strengths.old xframes.old xstrengths.old edges.old bounds.old) }
    ensures { page.new ≡ shown given.now
        (chain_of (take_of db.now pitch.old voiced.now sonority.now vowel.now
        [] p) (lists_of frames.old strengths.old xframes.old xstrengths.old
        edges.old bounds.old)) }
{
    let answer = chain::chain(
        db,
        pitch,
        voiced,
        sonority,
        vowel,
        &[],
        p,
        frames,
        strengths,
        xframes,
        xstrengths,
        edges,
        bounds,
    );
    show(
        given,
        Answered {
            answer,
            pitch,
            frames,
            strengths,
            xframes,
            xstrengths,
            edges,
            bounds,
        },
        page,
    );
}

// Lends the result lists, each as long as the take needs: parts of tables, since there is no heap.
fn with_lists(
    given: &[f32],
    db: &[f32],
    pitch: &mut [f32],
    voiced: &[f32],
    sonority: &[f32],
    vowel: &[u8],
    p: Settings,
    page: &mut Page<LARGEST_LISTING>,
)
    requires given_value { (given.now ≡ pitch.old) × (length pitch.old ≤ 2048) }
    ensures { page.new ≡ text_of
        (take_of db.now pitch.old voiced.now sonority.now vowel.now [] p) }
{
    let n = pitch.len();
    let mut frames = [0u32; 2048];
    let mut strengths = [0.0f32; 2048];
    let mut xframes = [0u32; 2048];
    let mut xstrengths = [0.0f32; 2048];
    let mut edges = [0u32; 2048];
    // A take has up to one boundary more than frames.
    let mut bounds = [0u32; 2049];
    list_marks(
        given,
        db,
        pitch,
        voiced,
        sonority,
        vowel,
        p,
        &mut frames[..n],
        &mut strengths[..n],
        &mut xframes[..n],
        &mut xstrengths[..n],
        &mut edges[..n],
        &mut bounds[..n + 1],
        page,
    );
}

// Reads a take to lent tracks, its pitches twice, since the chain changes them.
fn on_tracks(
    file: &[u8],
    given: &mut [f32],
    db: &mut [f32],
    pitch: &mut [f32],
    voiced: &mut [f32],
    sonority: &mut [f32],
    vowel: &mut [u8],
    page: &mut Page<LARGEST_LISTING>,
)
    requires file_bound { (frame_count file.now ≤ 2048) × (19 + 17 * frame_count file.now ≤ length file.now) }
    requires db_len { (length db.old ≡ frame_count file.now) × (length pitch.old ≡ frame_count file.now)
        × (length voiced.old ≡ frame_count file.now) × (length sonority.old ≡ frame_count file.now)
        × (length vowel.old ≡ frame_count file.now) × (length given.old ≡ frame_count file.now) }
    ensures { page.new ≡ text_of (unsampled (take_in file.now)) }
{
    read_track(file, 4, given);
    let p = read_take(file, db, pitch, voiced, sonority, vowel);
    with_lists(given, db, pitch, voiced, sonority, vowel, p, page);
}

// Lends the tracks, each as long as the take: parts of tables, since there is no heap.
fn with_tracks(file: &[u8], page: &mut Page<LARGEST_LISTING>)
    requires file_bound { (frame_count file.now ≤ 2048) × (19 + 17 * frame_count file.now ≤ length file.now) }
    ensures { page.new ≡ text_of (unsampled (take_in file.now)) }
{
    let n = frames_in(file);
    let mut given = [0.0f32; 2048];
    let mut db = [0.0f32; 2048];
    let mut pitch = [0.0f32; 2048];
    let mut voiced = [0.0f32; 2048];
    let mut sonority = [0.0f32; 2048];
    let mut vowel = [0u8; 2048];
    on_tracks(
        file,
        &mut given[..n],
        &mut db[..n],
        &mut pitch[..n],
        &mut voiced[..n],
        &mut sonority[..n],
        &mut vowel[..n],
        page,
    );
}

// Leaves on a page what `marks` prints for a file, and nothing else.
pub fn marks_of(file: &[u8], page: &mut Page<LARGEST_LISTING>)
    ensures { page.new ≡ printed file.now }
{
    match take_refusal(file, file.len()) {
        Ok(()) => with_tracks(file, page),
        Err(refusal) => refused(u32::from(refusal), page),
    }
}
