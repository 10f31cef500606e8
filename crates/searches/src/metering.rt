// Section 4: the readings.
ghost use Rattle.std.specs.Prelude.{◌≡◌, ◌+◌, ◌-◌, ◌*◌, ◌≤◌, length};
ghost use Rattle.integers.specs.First.{first};
ghost use Rattle.integers.specs.FoundInner.{found_at};
ghost use Rattle.book.specs.Metering.{bad_reading};
ghost use Rattle.searches.specs.MeteringInner.{any_bad};

// The least and the greatest raised reading in range: 10^9 watts each way.
const LEAST: u32 = wire::RAISE - 1_000_000_000;

const GREATEST: u32 = wire::RAISE + 1_000_000_000;

// So many readings are tested before the first block with one out of range is looked at again.
const BLOCK: usize = 1024;

// Reading i is there, and more than 10^9 watts off.
#[tactic(auto, using(crate::proofs::MeteringLaws::outside_cases))]
fn outside(readings: &[u8], i: usize) -> bool
    requires { 4 * i + 4 ≤ length readings.now }
    ensures { result ≡ bad_reading readings.now i }
{
    match wire::raised_at(readings, i) {
        Some(raised) => (raised < LEAST) | (GREATEST < raised),
        None => false,
    }
}

// Whether one of n readings from `at` on is out of range. None ends the loop: a way out keeps the compiler from testing several at once, and took four times as
// long (docs/CHANGING.md).
#[tactic(auto, using(integers::proofs::FirstLaws::any_next), unfolding(integers::specs::First::any_below, crate::specs::MeteringInner::any_bad))]
fn any_outside(readings: &[u8], at: usize, n: usize) -> bool
    requires { 4 * (at + n) ≤ length readings.now }
    ensures { result ≡ any_bad readings.now at n }
{
    let mut bad = false;
    for k in 0..n {
        bad |= outside(readings, at + k);
    }
    bad
}

// The first of the readings from `at` on, up to n, that is out of range.
#[tactic(auto, using(crate::proofs::BlocksLaws::finds))]
fn first_outside(readings: &[u8], at: usize, n: usize) -> Option<usize>
    requires { (4 * n ≤ length readings.now) × (at ≤ n) }
    ensures { found_at result ≡ first (bad_reading readings.now) at (n - at) }
{
    (at..n).find(|i| outside(readings, *i))
}

// How many whole blocks of n readings come before the first that has one out of range.
#[tactic(auto, using(crate::proofs::BlocksLaws::blocks))]
fn good_blocks(readings: &[u8], n: usize) -> usize
    requires { 4 * n ≤ length readings.now }
    ensures inside { 1024 * result ≤ n }
    ensures behind { first (bad_reading readings.now) 0 n ≡ first (bad_reading readings.now) (1024 * result) (n - 1024 * result) }
{
    let blocks = n / BLOCK;
    let bad = (0..blocks).find(|block| any_outside(readings, BLOCK * *block, BLOCK));
    bad.unwrap_or(blocks)
}

// The first of n readings that is out of range: by blocks, and one by one from the block that has it.
pub fn judge_readings(readings: &[u8], n: usize) -> Option<usize>
    requires { 4 * n ≤ length readings.now }
    ensures { found_at result ≡ first (bad_reading readings.now) 0 n }
{
    first_outside(readings, BLOCK * good_blocks(readings, n), n)
}
