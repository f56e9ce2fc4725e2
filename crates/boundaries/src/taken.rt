// The kept frames.
ghost use Rattle.std.specs.Prelude.{◌≡◌, [], ◌∷◌, map, ◌≤◌};
ghost use Rattle.lists.specs.By.{Each};
ghost use Rattle.lists.specs.Sorted.{sorted};
ghost use Rattle.lists.specs.Candidates.{frame_in};
ghost use Rattle.boundaries.specs.Keeping.{ends};
ghost use Rattle.boundaries.specs.Taken.{kept_near, Taken, AddedInTurn, taken_frames};

use arrayvec::ArrayVec;
use lists::candidates::frame_of;
use lists::sort::sort;

// The frames that are kept: a mark for each, that of frame x in cell x + 2, with two cells to spare at either end; how many
// they are; and how many may be.
#[derive(Drop)]
pub struct Kept {
    marks: [bool; 2053],
    count: usize,
    cap: usize,
}

impl Kept {
    // A region's two ends: one frame where they are the same.
    pub fn ends(start: usize, end: usize, cap: usize) -> Kept
        requires { (start ≤ 2048) × (end ≤ 2048) }
        ensures { Taken (ends start end) result × (result.cap ≡ cap) }
    {
        let mut marks = [false; 2053];
        marks[start + 2] = true;
        marks[end + 2] = true;
        let count = if start == end { 1 } else { 2 };
        Kept { marks, count, cap }
    }

    // Whether a frame within 2 of frame at is kept.
    fn is_near(&self, at: usize) -> bool
        requires { at ≤ 2048 }
        ensures { result ≡ kept_near self.now.marks at }
    {
        self.marks[at]
            | self.marks[at + 1]
            | self.marks[at + 2]
            | self.marks[at + 3]
            | self.marks[at + 4]
    }

    // Keeps frame at too, unless as many are kept as may be or one of them is within 2 frames of it.
    pub fn try_add(&mut self, at: u32)
        requires { at ≤ 2048 }
        ensures { AddedInTurn (at ∷ []) self.old self.new }
    {
        let i = at as usize;
        if self.count < self.cap && !self.is_near(i) {
            self.marks[i + 2] = true;
            self.count += 1;
        }
    }

    // Tries the frames of keys, that of the smallest key first.
    pub fn add_sorted(&mut self, keys: &mut [u64])
        requires { Each (λ f. f ≤ 2048) (map frame_in (sorted keys.old)) }
        ensures { AddedInTurn (map frame_in (sorted keys.old)) self.old self.new }
    {
        sort(keys);
        for key in keys.iter() {
            self.try_add(frame_of(*key));
        }
    }

    // Leaves the kept frames up to frame n, in order, in a list, and nothing else.
    pub fn frames(&self, n: usize, frames: &mut ArrayVec<u32, 2049>)
        requires { n ≤ 2048 }
        ensures { frames.new.items ≡ taken_frames self.now.marks n }
    {
        frames.clear();
        for x in 0..n + 1 {
            if self.marks[x + 2] {
                frames.push(x as u32);
            }
        }
    }
}
