// Candidates that are one nucleus, merged.
ghost use Rattle.std.specs.Prelude.{◌≡◌, ◌≤◌, ◌<◌, ◌+◌, ◌⊎◌, ℕ, reverse, length};
ghost use Rattle.arrayvec.specs.ArrayVec.{array_vec_len};
ghost use Rattle.lists.specs.Marks.{in_order};
ghost use Rattle.lists.specs.Results.{keep};
ghost use Rattle.lists.specs.Stack.{Falls};
ghost use Rattle.nuclei.specs.Merging.{push_by, merged};
ghost use Rattle.nuclei.specs.Nuclei.{one_nucleus, louder};

use arrayvec::ArrayVec;
use lists::marks::marks;
use region::Settings;
use runs::near::in_separate_runs;
use runs::voiced::Span;
use smooth::extrema::Part;

// Whether two frames, the earlier first, are one nucleus: closer than the gap, or with no valley between them and not in
// two different syllable runs.
fn one_nucleus(s: &[f32], syllables: &[Span], p: Settings, prev: u32, x: u32) -> bool
    requires { (prev < x) × (x < length s.now) × (length syllables.now ≤ 2048) }
    ensures { result ≡ one_nucleus s.now syllables.now p prev x }
{
    if x - prev < p.gap {
        return true;
    }
    let valley = Part {
        s,
        a: prev as usize,
        b: x as usize,
    };
    valley.is_shallow(p.dip) && !in_separate_runs(syllables, prev, x)
}

// The louder of two frames, the earlier on a tie.
// Two frames and no struct: the closures of `push_merging` are asked of two frames.
pub fn louder(s: &[f32], prev: u32, x: u32) -> u32
    requires { (prev < x) × (x < length s.now) }
    ensures { result ≡ louder s.now prev x }
{
    if s[x as usize] <= s[prev as usize] {
        prev
    } else {
        x
    }
}

// Puts a frame that is later than the kept ones onto them. Where it is one with the last of them, that one goes, and
// which of the two stays is put onto those before in its turn. What the closures answer of such pairs decides.
// It calls itself and has no loop: a form that was asked for by name (docs/DECISIONS.md).
pub fn push_merging<F: Fn(u32, u32) -> bool, G: Fn(u32, u32) -> u32, const N: usize>(
    are_one: &F,
    stays: &G,
    kept: &mut ArrayVec<u32, N>,
    x: u32,
)
    requires room { array_vec_len kept.old < N }
    requires later { Falls x (reverse kept.old.items) }
    requires asks { (a b : ℕ) → a < b → b ≤ x → F.pre are_one.now a b × G.pre stays.now a b }
    requires picks { (a b r : ℕ) → a < b → b ≤ x → G.post stays.now a b r → (r ≡ a) ⊎ (r ≡ b) }
    ensures order { Falls (x + 1) (reverse kept.new.items) }
    ensures same { (one : _) (left : _) → ((a b : ℕ) → a < b → b ≤ x →
        ((r : _) → F.post are_one.now a b r → r ≡ one a b) × ((r : _) → G.post stays.now a b r → r ≡ left a b)) →
        reverse kept.new.items ≡ push_by one left (reverse kept.old.items) x }
{
    let Some(prev) = kept.last().copied() else {
        kept.push(x);
        return;
    };
    if are_one(prev, x) {
        kept.pop();
        push_merging(are_one, stays, kept, stays(prev, x));
    } else {
        kept.push(x);
    }
}

// Leaves the frames below n that pass a test, in order, with those that are one merged, in a list, and nothing else.
// Nuclei and extras are merged by this walk; they differ in the three closures.
pub fn merge_marked<
    P: Fn(usize) -> bool,
    F: Fn(u32, u32) -> bool,
    G: Fn(u32, u32) -> u32,
    const N: usize,
>(n: usize, is_in: P, are_one: F, stays: G, kept: &mut ArrayVec<u32, N>)
    requires room { (n ≤ 2048) × (n ≤ N) }
    requires tests { (i : ℕ) → i < n → P.pre is_in i }
    requires asks { (a b : ℕ) → a < b → b < n → F.pre are_one a b × G.pre stays a b }
    requires picks { (a b r : ℕ) → a < b → b < n → G.post stays a b r → (r ≡ a) ⊎ (r ≡ b) }
    ensures { (test : _) (one : _) (left : _) → ((i : ℕ) → i < n → (r : _) → P.post is_in i r → r ≡ test i) →
        ((a b : ℕ) → a < b → b < n →
        ((r : _) → F.post are_one a b r → r ≡ one a b) × ((r : _) → G.post stays a b r → r ≡ left a b)) →
        kept.new.items ≡ merged one left (keep test 0 n) }
{
    kept.clear();
    for i in 0..n {
        if is_in(i) {
            push_merging(&are_one, &stays, kept, i as u32);
        }
    }
}

// Leaves the candidates, in order, with those that are one nucleus merged, in a list, and nothing else.
pub fn merged<const N: usize>(
    s: &[f32],
    syllables: &[Span],
    p: Settings,
    cands: &[u32],
    kept: &mut ArrayVec<u32, N>,
)
    requires { (length s.now ≤ 2048) × (length syllables.now ≤ 2048) × (length s.now ≤ N) }
    ensures { kept.new.items ≡ merged (one_nucleus s.now syllables.now p) (louder s.now)
        (in_order cands.now (length s.now)) }
{
    let is_cand = marks(cands);
    merge_marked(
        s.len(),
        |i| is_cand[i],
        |prev, x| one_nucleus(s, syllables, p, prev, x),
        |prev, x| louder(s, prev, x),
        kept,
    );
}
