// Boundaries: candidate frames for the edges of syllables, kept in the order of their priority.
// They go to the front of a lent list, and a count comes back: whoever calls the C interface brings all memory, and gives a
// region as two numbers.
// That a track has at most 2,048 frames goes with `Tracks`; where no `Tracks` is at hand it is a `requires` and no type: C and
// files give plain slices, and a type round them would have to be made before each call. So for nuclei that rise, and for
// runs that are no more than frames and lie in the track.
#![tactic(auto)]

ghost use Rattle.std.specs.Prelude.{◌≡◌, ◌+◌, ◌≤◌, length};
ghost use Rattle.lists.specs.Results.{Listed};
ghost use Rattle.lists.specs.Sorted.{StrictlyRises};
ghost use Rattle.boundaries.specs.Boundaries.{boundaries_in, boundaries_of};

use arrayvec::ArrayVec;
use edges::{Speech, Voicing, add_edges};
use joints::add_joints;
use minima::add_minima;
use region::{Bounds, Settings, speech_threshold};
use smooth::level::smoothed_db;
use taken::Kept;
use tracks::Tracks;

mod edges;
mod joints;
mod minima;
mod taken;
pub mod tracks;

// Writes the boundaries of a region, given the level and the threshold, and returns how many they are: the region's ends
// first, then joints, pause edges, voicing edges and minima inside long spans, each kept unless one within 2 frames is or 4
// for each nucleus and 2 are. They rise from start to end; a region of no frame has one.
pub fn boundaries_over(t: Tracks, dip: f32, nuclei: &[u32], out: &mut [u32]) -> usize
    requires strictly_rises { StrictlyRises 0 (length t.db.now) nuclei.now }
    requires db_in_bounds { length t.db.now + 1 ≤ length out.old }
    ensures { Listed (boundaries_in t.entry.db.now t.entry.level.now t.entry.pitch.now t.entry.voiced.now t.entry.bounds dip
        nuclei.now) out.old out.new result }
{
    let cap = 4 * nuclei.len() + 2;
    let b = t.bounds;
    let speech = Speech {
        db: t.db,
        threshold: b.threshold,
    };
    let skip = speech.creaks(t.pitch);
    let voicing = Voicing {
        pitch: t.pitch,
        voiced: t.voiced,
        skip: &skip,
    };
    let mut kept = Kept::ends(b.start, b.end, cap);
    add_joints(t, dip, nuclei, &mut kept);
    add_edges(&speech, b, &mut kept);
    add_edges(&voicing, b, &mut kept);
    add_minima(t.level, &skip, &mut kept);
    let mut frames = ArrayVec::<u32, 2049>::new();
    kept.frames(t.level.len(), &mut frames);
    let n = frames.len();
    out[..n].copy_from_slice(&frames);
    n
}

// Writes the boundaries of a region of a take, under the settings, and returns how many they are.
pub fn boundaries_with(
    db: &[f32],
    pitch: &[f32],
    voiced: &[f32],
    start: usize,
    end: usize,
    nuclei: &[u32],
    p: Settings,
    out: &mut [u32],
) -> usize
    requires start_le_end { (start ≤ end) × (end ≤ length db.now) × (length db.now ≤ 2048) × (length pitch.now ≡ length db.now)
        × (length voiced.now ≡ length db.now) }
    requires strictly_rises { StrictlyRises 0 (length db.now) nuclei.now }
    requires db_in_bounds { length db.now + 1 ≤ length out.old }
    ensures { Listed (boundaries_of db.now pitch.now voiced.now start end
        nuclei.now p) out.old out.new result }
{
    let mut level = [0.0f32; 2048];
    smoothed_db(db, &mut level);
    let tracks = Tracks {
        db,
        level: &level[..db.len()],
        pitch,
        voiced,
        bounds: Bounds {
            threshold: speech_threshold(db, p),
            start,
            end,
        },
    };
    boundaries_over(tracks, p.dip, nuclei, out)
}
