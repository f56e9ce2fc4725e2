// Whole sums over a window of samples. An i64 and a u64 hold them with room to spare: a product of two samples is at most
// 2^30 in size.
ghost use Rattle.std.specs.Prelude.{◌≡◌, ◌≤◌, ◌^◌, nat_abs, ◌*ℤ◌, length, drop};
ghost use Rattle.nsdf.specs.Nsdf.{square, cross, power};
ghost use Rattle.nsdf.specs.Running.{Running};

// The product of two samples.
fn product(a: i16, b: i16) -> i64
    ensures value { result ≡ a *ℤ b }
    ensures result_bound { nat_abs result ≤ 2 ^ 30 }
{
    (a as i64) * (b as i64)
}

// The square of a sample.
fn squared(a: i16) -> u64
    ensures value { result ≡ square a }
    ensures upper_bound { result ≤ 2 ^ 30 }
{
    product(a, a) as u64
}

// Samples that stand one after another, at most 512.
#[derive(Clone, Copy)]
pub struct Window<'a> {
    pub samples: &'a [i16],
    pub ghost short: { length samples.now ≤ 512 },
}

impl<'a> Window<'a> {
    // The samples from a lag on: each makes a pair with the sample a lag before it.
    fn later(self, lag: usize) -> &'a [i16]
        ensures { result.now ≡ drop lag self.entry.samples.now }
    {
        &self.samples[lag.min(self.samples.len())..]
    }

    // The products of the samples that lie a lag apart, added up: 0 where there is no pair.
    pub fn cross(self, lag: usize) -> i64
        ensures { result ≡ cross self.entry.samples.now (drop lag self.entry.samples.now) }
    {
        let mut sum = 0i64;
        for (x, y) in self.samples.iter().zip(self.later(lag)) {
            sum += product(*x, *y);
        }
        sum
    }

    // The squares of both samples of each such pair, added up pair by pair: 0 where there is no pair.
    pub fn power(self, lag: usize) -> u64
        ensures value { result ≡ power self.entry.samples.now (drop lag self.entry.samples.now) }
        ensures upper_bound { result ≤ 2 ^ 40 }
    {
        let mut sum = 0u64;
        for (x, y) in self.samples.iter().zip(self.later(lag)) {
            sum += squared(*x) + squared(*y);
        }
        sum
    }

    // At each i, up to the window's length, the squares of the first i samples, added up. Entries past it are free.
    // Written by index: a loop over `iter_mut().zip` takes 1.4 times as long.
    pub fn running_sums(self) -> [u64; 513]
        ensures { Running self.entry.samples.now result }
    {
        let mut sums = [0u64; 513];
        let mut sum = 0u64;
        for (i, x) in self.samples.iter().enumerate() {
            sum += squared(*x);
            sums[i + 1] = sum;
        }
        sums
    }
}

// A window with its running sums of squares, which serve every lag. They are lent: a table that is moved into the struct is
// copied, which takes as long as all else where a window has few samples.
#[derive(Clone, Copy)]
pub struct Squares<'a> {
    pub window: Window<'a>,
    pub sums: &'a [u64; 513],
    pub ghost running: { Running window.samples.now sums.now },
}

impl Squares<'_> {
    // What `Window::power` gives: the squares of the samples that have a later partner, and of those that have an earlier one.
    pub fn power(&self, lag: usize) -> u64
        ensures value { result ≡ power self.now.window.samples.now (drop lag self.now.window.samples.now) }
        ensures upper_bound { result ≤ 2 ^ 40 }
    {
        let n = self.window.samples.len();
        if n <= lag {
            return 0;
        }
        self.sums[n - lag] + (self.sums[n] - self.sums[lag])
    }
}
