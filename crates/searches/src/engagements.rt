// Refusal 7: the engagements' rows.
ghost use Rattle.std.specs.Prelude.{◌≡◌, not, ◌||◌, ◌+◌, ◌*◌, ◌≤◌, length};
ghost use Rattle.integers.specs.First.{first};
ghost use Rattle.integers.specs.FoundInner.{found_at};
ghost use Rattle.book.specs.Engagements.{place_good, terms_good, rises, overlaps, out_of_order, bad_engagement};

use book::sections::row_at;
use quarters::RangedCalendar;

// The point, the day and the quarter-hours are those of the book.
#[tactic(auto, unfolding(book::specs::Engagements::place_good))]
fn place_good(row: &[u8; 16], c: RangedCalendar, points: usize) -> bool
    ensures { result ≡ place_good c.calendar points row.now }
{
    let point = wire::u16_at(row, 0) as usize;
    let day = wire::u8_at(row, 2) as u64;
    let first = wire::u8_at(row, 3) as u64;
    let count = wire::u8_at(row, 4) as u64;
    let quarters = c.calendar.quarters(day);
    point < points
        && c.calendar.lead <= day
        && day < c.days()
        && first < quarters
        && 1 <= count
        && first + count <= quarters
}

#[tactic(auto, unfolding(book::specs::Engagements::terms_good))]
fn terms_good(row: &[u8; 16]) -> bool
    ensures { result ≡ terms_good row.now }
{
    wire::u8_at(row, 5) <= 1
        && wire::u8_at(row, 6) <= 96
        && wire::u8_at(row, 7) == 0
        && (1..=1_000_000_000).contains(&wire::u32_at(row, 8))
        && wire::u32_at(row, 12) == 0
}

// Row b does not follow row a: it does not rise, or it overlaps.
fn unfit(a: &[u8; 16], b: &[u8; 16]) -> bool
    ensures { result ≡ (not (rises a.now b.now) || overlaps a.now b.now) }
{
    let point = wire::u16_at(a, 0);
    let point2 = wire::u16_at(b, 0);
    let day = wire::u8_at(a, 2);
    let day2 = wire::u8_at(b, 2);
    let first = wire::u8_at(a, 3) as u64;
    let first2 = wire::u8_at(b, 3) as u64;
    let end = first + (wire::u8_at(a, 4) as u64);
    let rises = (point, day, first) < (point2, day2, first2);
    let overlaps = (point, day) == (point2, day2) && first2 < end;
    !rises || overlaps
}

// Row i does not follow the row before it.
#[tactic(auto, using(crate::proofs::OrderLaws::first_row, crate::proofs::OrderLaws::later_row))]
fn out_of_order(engagements: &[u8], i: usize) -> bool
    requires { 16 * i + 16 ≤ length engagements.now }
    ensures { result ≡ out_of_order engagements.now i }
{
    i > 0 && unfit(row_at(engagements, i - 1), row_at(engagements, i))
}

#[tactic(auto, unfolding(book::specs::Engagements::bad_engagement))]
fn bad_engagement(engagements: &[u8], i: usize, c: RangedCalendar, points: usize) -> bool
    requires { 16 * i + 16 ≤ length engagements.now }
    ensures { result ≡ bad_engagement c.calendar points engagements.now i }
{
    let row = row_at(engagements, i);
    !(place_good(row, c, points) && terms_good(row)) || out_of_order(engagements, i)
}

// The first bad row of n.
#[tactic(auto, using(crate::proofs::BlocksLaws::finds))]
pub fn judge_engagements(
    engagements: &[u8],
    n: usize,
    c: RangedCalendar,
    points: usize,
) -> Option<usize>
    requires { 16 * n ≤ length engagements.now }
    ensures { found_at result ≡ first (bad_engagement c.calendar points engagements.now) 0 n }
{
    (0..n).find(|i| bad_engagement(engagements, *i, c, points))
}
