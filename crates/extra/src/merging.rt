// Nuclei and unpitched peaks that are one syllable, merged.
ghost use Rattle.std.specs.Prelude.{◌≡◌, ◌≤◌, ◌<◌, length};
ghost use Rattle.lists.specs.Sorted.{StrictlyRises};
ghost use Rattle.extra.specs.Merging.{mark_at, one_syllable, survivor, anchors};

use arrayvec::ArrayVec;
use lists::marks::marks;
use nuclei::merging::{louder, merge_marked};
use region::Settings;
use smooth::extrema::Part;

// Whether two anchors, the earlier first, are one syllable: closer than the gap, or with no valley between them. Two
// nuclei are not, since both were kept as nuclei. The unpitched peaks are marked.
// Two frames and no struct: as at `nuclei::merging::louder`.
fn one_syllable(s: &[f32], p: Settings, is_peak: &[bool; 2048], prev: u32, x: u32) -> bool
    requires { (length s.now ≤ 2048) × (prev < x) × (x < length s.now) }
    ensures { result ≡ one_syllable s.now p (mark_at is_peak.now) prev x }
{
    if is_peak[prev as usize] || is_peak[x as usize] {
        let valley = Part {
            s,
            a: prev as usize,
            b: x as usize,
        };
        return x - prev < p.gap || valley.is_shallow(p.dip);
    }
    false
}

// Which of two anchors, the earlier first, stays when they are one syllable: the nucleus; of two peaks without pitch the
// louder one, and where they are alike the first.
fn survivor(s: &[f32], is_peak: &[bool; 2048], prev: u32, x: u32) -> u32
    requires { (length s.now ≤ 2048) × (prev < x) × (x < length s.now) }
    ensures { result ≡ survivor s.now (mark_at is_peak.now) prev x }
{
    if !is_peak[prev as usize] {
        return prev;
    }
    if is_peak[x as usize] {
        louder(s, prev, x)
    } else {
        x
    }
}

// Leaves in a list what is left of the nuclei and the unpitched peaks, in order, when those that are one syllable are
// merged, and nothing else. The list is lent, since one that is returned lies on the stack twice more.
pub fn merged<const N: usize>(
    s: &[f32],
    p: Settings,
    nuclei: &[u32],
    peaks: &[u32],
    kept: &mut ArrayVec<u32, N>,
)
    requires { (length s.now ≤ 2048) × StrictlyRises 0 (length s.now) peaks.now × (length s.now ≤ N) }
    ensures { kept.new.items ≡ anchors s.now p nuclei.now peaks.now }
{
    let is_nucleus = marks(nuclei);
    let is_peak = marks(peaks);
    merge_marked(
        s.len(),
        |i| is_nucleus[i] || is_peak[i],
        |prev, x| one_syllable(s, p, &is_peak, prev, x),
        |prev, x| survivor(s, &is_peak, prev, x),
        kept,
    );
}
