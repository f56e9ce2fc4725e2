// The first frame that passes a test.
ghost use Rattle.std.specs.Prelude.{◌≡◌, ℕ, Bool, ◌+◌, ◌-◌, ◌≤◌, ◌<◌};
ghost use Rattle.lists.specs.Frames.{some_frame, first_in};

// How many frames are looked at together.
const BLOCK: usize = 16;

// Whether a frame of the block from j on passes. All of them are asked, which is quick in a long stretch where none does.
// Their answers are added: joined by `|` they become a branch for each frame, which takes twice as long on a flat track.
fn any_passes<F: Fn(usize) -> bool>(test: &F, j: usize) -> bool
    requires room { j + 16 < 18446744073709551616 }
    requires asks { (k : ℕ) → j ≤ k → k < j + 16 → F.pre test.now k }
    ensures { (p : ℕ → Bool) → ((k : ℕ) → j ≤ k → k < j + 16 → (b : _) → F.post test.now k b → b ≡ p k) →
        result ≡ some_frame p j 16 }
{
    let mut passed = 0u8;
    for k in j..j + BLOCK {
        passed += test(k) as u8;
    }
    0 < passed
}

// A frame with none that passes before it from i on: where the whole blocks without any end.
fn skip_blocks<F: Fn(usize) -> bool>(test: &F, i: usize, n: usize) -> usize
    requires asks { (k : ℕ) → i ≤ k → k < n → F.pre test.now k }
    ensures low { i ≤ result }
    ensures same { (p : ℕ → Bool) → ((k : ℕ) → i ≤ k → k < n → (b : _) → F.post test.now k b → b ≡ p k) →
        first_in p result (n - result) ≡ first_in p i (n - i) }
{
    let mut at = i;
    // A `while`: it answers where the whole blocks end, which a `for` over `step_by` does not leave.
    while BLOCK <= n.saturating_sub(at) {
        if any_passes(test, at) {
            return at;
        }
        at += BLOCK;
    }
    at
}

// The first frame of i..n that passes a test. Where i is past n, there is none.
pub fn first_from<F: Fn(usize) -> bool>(test: F, i: usize, n: usize) -> Option<usize>
    requires asks { (k : ℕ) → i ≤ k → k < n → F.pre test k }
    ensures { (p : ℕ → Bool) → ((k : ℕ) → i ≤ k → k < n → (b : _) → F.post test k b → b ≡ p k) →
        result ≡ first_in p i (n - i) }
{
    // A loop: with the library's `find` a search in a flat track takes 1.4 times as long.
    for at in skip_blocks(&test, i, n)..n {
        if test(at) {
            return Some(at);
        }
    }
    None
}
