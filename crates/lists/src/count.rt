// How many entries of a list pass a test.
ghost use Rattle.std.specs.Prelude.{◌≡◌, ◌<◌, length, All};
ghost use Rattle.lists.specs.By.{count_if};

// How many entries pass. The test is asked of each entry, and its answer is added, so that the loop has no branch but its own:
// `filter(..).count()` takes 15 times as long.
pub fn count_if<T: Copy, F: Fn(T) -> bool>(xs: &[T], test: F) -> u32
    requires callable { F.IsAlwaysCallable test }
    requires room { length xs.now < 4294967296 }
    ensures { (p : _) → All (λ x. (b : _) → F.post test x b → b ≡ p x) xs.now → result ≡ count_if p xs.now }
{
    let mut n = 0u32;
    for x in xs {
        n += test(*x) as u32;
    }
    n
}
