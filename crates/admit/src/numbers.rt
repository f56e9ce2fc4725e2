// The refusals, and the first of several whose test fails: what every table of refusals goes by.
ghost use Rattle.std.specs.Prelude.{◌≡◌, ℕ};
ghost use Rattle.admit.specs.First.{first_of};
ghost use Rattle.admit.specs.Numbers.{number_at, number_of, number_by, numbers_by, tests_in};

// Why a call is refused, with the number that C callers get: lengths over the limit, lists that are not alike, what is
// given for a parameter or in a list, too little room; and bytes of a take file that do not agree.
#[derive(Clone, Copy, PartialEq, Eq)]
pub enum Refusal {
    Lengths = 1,
    Alike = 2,
    Settings = 3,
    Db = 4,
    Pitch = 5,
    Sonority = 6,
    Region = 7,
    Nuclei = 8,
    Samples = 9,
    Room = 10,
    Bytes = 11,
}

impl From<Refusal> for u32 {
    ghost from_gives = { λ r n. n ≡ number_at r };

    fn from(r: Refusal) -> u32 {
        r as u32
    }
}

// The number of a refusal, 0 for none. No `From`: neither `Result` nor u32 is this crate's.
pub fn number(r: Result<(), Refusal>) -> u32
    ensures { result ≡ number_of r }
{
    match r {
        Ok(()) => 0,
        Err(refusal) => u32::from(refusal),
    }
}

// The first of a table's rows whose test fails, whatever numbers its rows stand for: refusals by their numbers, or numbers
// themselves.
pub fn first_failed<T: Copy>(table: &[(bool, T)]) -> Result<(), T>
    ensures { (number : T → ℕ) → number_by number result ≡ first_of (numbers_by number table.now)
        (tests_in table.now) }
{
    for (passed, row) in table {
        if !*passed {
            return Err(*row);
        }
    }
    Ok(())
}
