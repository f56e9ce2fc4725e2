// Joints of neighbouring nuclei.
ghost use Rattle.std.specs.Prelude.{◌≡◌, [], ◌∷◌, ◌≤◌, ◌<◌, length};
ghost use Rattle.lists.specs.Results.{filter};
ghost use Rattle.lists.specs.Sorted.{StrictlyRises};
ghost use Rattle.smooth.specs.Extrema.{argmin_middle};
ghost use Rattle.runs.specs.Runs.{InTrack};
ghost use Rattle.runs.specs.Syllables.{syllable_runs};
ghost use Rattle.boundaries.specs.Taken.{AddedInTurn, joint_frames};
ghost use Rattle.boundaries.specs.Joints.{joint, inner, joints_inside};

use super::taken::Kept;
use super::tracks::Tracks;
use region::Bounds;
use runs::near::run_of;
use runs::syllables::syllable_runs;
use runs::voiced::Span;
use smooth::extrema::{Extremum, Part};

// A joint of two nuclei: the frame of the lowest level between them, or both edges of the pitch break.
#[derive(Clone, Copy)]
pub enum Joint {
    Lowest(u32),
    Break(u32, u32),
}

// The frame of the lowest level between two nuclei, as a joint.
fn lowest_joint(between: Part<'_>) -> Joint
    requires { length between.s.now ≤ 2048 }
    ensures { joint_frames result ≡ argmin_middle between.entry.s.now between.entry.a between.entry.b ∷ [] }
{
    Joint::Lowest(between.extremum_middle(Extremum::Min) as u32)
}

// The joint of the nuclei at the ends of a part, given the syllable runs.
fn joint_of(between: Part<'_>, runs: &[Span], dip: f32) -> Joint
    requires fits { length between.s.now ≤ 2048 }
    requires in_track { InTrack (length between.s.now) runs.now × (length runs.now ≤ 2048) }
    ensures { joint_frames result ≡ joint between.entry.s.now runs.now dip between.entry.a between.entry.b }
{
    let Some(x) = run_of(runs, between.a as u32) else {
        return lowest_joint(between);
    };
    let Some(y) = run_of(runs, between.b as u32) else {
        return lowest_joint(between);
    };
    if x.number != y.number && between.is_shallow(dip) {
        return Joint::Break(x.run.last + 1, y.run.first);
    }
    lowest_joint(between)
}

// Tries a frame if it lies strictly inside the region. By hand: the range `b.start + 1..b.end` would ask that `b.start` is below
// the largest usize.
fn add_inside(at: u32, b: Bounds, kept: &mut Kept)
    requires { b.end ≤ 2048 }
    ensures { AddedInTurn (filter (inner b.start b.end) (at ∷ [])) kept.old kept.new }
{
    let i = at as usize;
    if b.start < i && i < b.end {
        kept.try_add(at);
    }
}

// Tries the frames of a joint that lie strictly inside the region.
fn add_joint(joint: Joint, b: Bounds, kept: &mut Kept)
    requires { b.end ≤ 2048 }
    ensures { AddedInTurn (filter (inner b.start b.end) (joint_frames joint)) kept.old kept.new }
{
    match joint {
        Joint::Lowest(m) => add_inside(m, b, kept),
        Joint::Break(l, f) => {
            add_inside(l, b, kept);
            add_inside(f, b, kept);
        }
    }
}

// Tries the joints of neighbouring nuclei that lie strictly inside the region, in order.
pub fn add_joints(t: Tracks, dip: f32, nuclei: &[u32], kept: &mut Kept)
    requires { StrictlyRises 0 (length t.db.now) nuclei.now }
    ensures { AddedInTurn (joints_inside t.entry.level.now (syllable_runs t.entry.pitch.now) dip
        t.entry.bounds.start t.entry.bounds.end nuclei.now) kept.old kept.new }
{
    let runs = syllable_runs(t.pitch);
    for pair in nuclei.windows(2) {
        let between = Part {
            s: t.level,
            a: pair[0] as usize,
            b: pair[1] as usize,
        };
        add_joint(joint_of(between, &runs, dip), t.bounds, kept);
    }
}
