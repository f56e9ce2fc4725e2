// What is listed of a take.
ghost use Rattle.std.specs.Prelude.{◌≡◌, ◌≤◌, length};

use region::Region;

// What a listing tells: the pitches as given and as left, the region, and the four lists.
#[derive(Clone, Copy)]
pub struct Told<'a> {
    pub given: &'a [f32],
    pub left: &'a [f32],
    pub region: Option<Region>,
    pub frames: &'a [u32],
    pub strengths: &'a [f32],
    pub extra_frames: &'a [u32],
    pub extra_strengths: &'a [f32],
    pub edges: &'a [u32],
    pub boundaries: &'a [u32],
    pub ghost given_len: { (length given.now ≡ length left.now) × (length left.now ≤ 2048) },
}
