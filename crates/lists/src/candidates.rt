// Candidates as whole numbers, whose rising order takes the heavier first and the earlier frame where they weigh the same.
// A number and no struct with an order of its own: docs/CONTRACTS.md tells the order by `key_of`, and one comparison sorts.
ghost use Rattle.std.specs.Prelude.{◌≡◌};
ghost use Rattle.lists.specs.Candidates.{key_of, frame_in};

// The key of a frame with its weight. A NaN weighs more than all others, and -0.0 less than +0.0.
pub fn key_of(frame: u32, weight: f32) -> u64
    ensures { result ≡ key_of (record { frame = frame; weight = weight }) }
{
    let place = 0xffff_ffff - floats::total::total_key(weight);
    (place as u64) * 0x1_0000_0000 + (frame as u64)
}

// The frame in a key.
pub fn frame_of(key: u64) -> u32
    ensures { result ≡ frame_in key }
{
    (key % 0x1_0000_0000) as u32
}
