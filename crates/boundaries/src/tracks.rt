// What the boundaries of a region are found from.
ghost use Rattle.boundaries.specs.Boundaries.{RegionTracks};

use region::Bounds;

// The tracks of a take, of one length, and a region of it: the dB as given and smoothed, the pitch, and how voiced each
// frame is.
#[derive(Clone, Copy)]
pub struct Tracks<'a> {
    pub db: &'a [f32],
    pub level: &'a [f32],
    pub pitch: &'a [f32],
    pub voiced: &'a [f32],
    pub bounds: Bounds,
    pub ghost matched: { RegionTracks db.now level.now pitch.now voiced.now bounds },
}
