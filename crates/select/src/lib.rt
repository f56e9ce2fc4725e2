// The entry at a place of a list as it would stand sorted, found by counting: nothing is sorted, moved or written.
#![tactic(auto)]

ghost use Rattle.std.specs.Prelude.{◌≡◌, cond, ◌+◌, ◌<◌, ltb, length, get_or};
ghost use Rattle.lists.specs.Sorted.{sorted};
ghost use Rattle.select.specs.Order.{at_most, least_of, greatest_of, least_above};

// How many keys are at most x.
pub fn count(keys: &[u32], x: u32) -> u32
    requires { length keys.now < 4294967296 }
    ensures { result ≡ at_most x keys.now }
{
    lists::count::count_if(keys, |k| k <= x)
}

// The smallest key; the largest u32 where there is no key. Numbers and no `Option` here and below, as the definitions have it:
// `kth` and `next` ask only of lists that have a key.
fn least(keys: &[u32]) -> u32
    ensures { result ≡ least_of keys.now }
{
    keys.iter().copied().min().unwrap_or(u32::MAX)
}

// The largest key; 0 where there is no key.
fn greatest(keys: &[u32]) -> u32
    ensures { result ≡ greatest_of keys.now }
{
    keys.iter().copied().max().unwrap_or(0)
}

// k where it is above x, else the largest u32, which is no smaller than any key: so `least_above` is defined.
fn over(k: u32, x: u32) -> u32
    ensures { result ≡ cond (ltb x k) k 4294967295 }
{
    if x < k { k } else { u32::MAX }
}

// The smallest of the keys above x; the largest u32 where no key is above x.
fn least_over(keys: &[u32], x: u32) -> u32
    ensures { result ≡ least_above x keys.now }
{
    // A loop and no fold, which took four times as long with the captured x.
    let mut b = u32::MAX;
    for k in keys {
        b = b.min(over(*k, x));
    }
    b
}

// The key at place k of the sorted keys, counted from 0. It lies between the smallest and the largest key, and halving
// that range finds the first number that more than k keys are at most.
pub fn kth(keys: &[u32], k: u32) -> u32
    requires k_in_bounds { k < length keys.now }
    requires keys_len_bound { length keys.now < 4294967296 }
    ensures { result ≡ get_or (sorted keys.now) k 0 }
{
    let mut lo = least(keys);
    let mut hi = greatest(keys);
    // A `while`, since it halves a range.
    while lo < hi {
        let mid = lo + (hi - lo) / 2;
        if k < count(keys, mid) {
            hi = mid;
        } else {
            lo = mid + 1;
        }
    }
    lo
}

// The key at place k + 1 of the sorted keys, where x is the one at place k: x again where there are enough of it, else
// the smallest above it.
pub fn next(keys: &[u32], k: u32, x: u32) -> u32
    requires k_in_bounds { k + 1 < length keys.now }
    requires keys_len_bound { length keys.now < 4294967296 }
    requires x_value { x ≡ get_or (sorted keys.now) k 0 }
    ensures { result ≡ get_or (sorted keys.now) (k + 1) 0 }
{
    if k + 1 < count(keys, x) {
        return x;
    }
    least_over(keys, x)
}
