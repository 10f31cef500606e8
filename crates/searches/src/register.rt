// Refusal 5: the register's rows.
ghost use Rattle.std.specs.Prelude.{◌≡◌, ◌+◌, ◌*◌, ◌^◌, ◌≤◌, ◌<◌, ltb, length};
ghost use Rattle.integers.specs.First.{first, any_below};
ghost use Rattle.integers.specs.FoundInner.{found_at};
ghost use Rattle.book.specs.Register.{access_in, register_row, numbers_good, rest_good, bytes_good, not_above, differs, bad_point};
ghost use Rattle.searches.specs.RegisterInner.{is_known, differs_from, Topped};

use book::Takers;
use book::register::takers_of;
use book::sections::row_at;

// There is such a situation.
fn known(takers: Takers) -> bool
    ensures { result ≡ is_known takers }
{
    takers != Takers::Refused
}

// Bits from `days` up are 0. These are the calendar's days, counted once for all rows: a type of so many would be made for this one test.
#[tactic(auto, using(crate::proofs::RegisterLaws::bits_above))]
fn mask_good(mask: u64, days: u32) -> bool
    requires { days ≤ 64 }
    ensures { result ≡ ltb mask (2 ^ days) }
{
    days == 64 || mask >> days == 0
}

#[tactic(auto, unfolding(book::specs::Register::numbers_good))]
fn numbers_good(row: &[u8; 64], days: u32) -> bool
    requires { days ≤ 64 }
    ensures { result ≡ numbers_good days row.now }
{
    wire::u64_at(row, 0) < 1_000_000_000_000_000_000
        && wire::u64_at(row, 8) < 1_000_000_000_000_000_000
        && wire::u64_at(row, 16) < 10_000_000_000
        && wire::u64_at(row, 24) < 10_000_000_000
        && mask_good(wire::u64_at(row, 32), days)
        && wire::u32_at(row, 40) <= 1_000_000_000
        && wire::u32_at(row, 44) <= 1_000_000_000
}

// The bytes that are no column are zero: in version 1 from byte 55 on, and from version 2 on but for the injection party in bytes 56 and 57.
#[tactic(auto, unfolding(book::specs::Register::rest_good))]
fn rest_good(version: u16, row: &[u8; 64]) -> bool
    ensures { result ≡ rest_good version row.now }
{
    if book::header::splits(version) {
        row[55] == 0 && wire::are_zero(&row[58..])
    } else {
        wire::are_zero(&row[55..])
    }
}

#[tactic(auto, using(crate::proofs::RegisterLaws::known_is), unfolding(book::specs::Register::bytes_good))]
fn bytes_good(version: u16, row: &[u8; 64]) -> bool
    ensures { result ≡ bytes_good version row.now }
{
    known(takers_of(wire::u8_at(row, 52)))
        && wire::u8_at(row, 53) <= 1
        && wire::u8_at(row, 54) <= 2
        && rest_good(version, row)
}

// Row i of a register.
#[derive(Clone, Copy, Debug, PartialEq, Eq)]
struct Row<'a> {
    register: &'a [u8],
    i: usize,
    ghost inside: { 64 * i + 64 ≤ length register.now },
}

impl<'a> Row<'a> {
    fn bytes(self) -> &'a [u8; 64]
        ensures { result.now ≡ register_row self.entry.register.now self.entry.i }
    {
        row_at(self.register, self.i)
    }

    fn access(self) -> u64
        ensures { result ≡ access_in (register_row self.entry.register.now self.entry.i) }
    {
        wire::u64_at(self.bytes(), 8)
    }

    // Its delivery EAN is not above that of the row before it.
    #[tactic(auto, using(crate::proofs::OrderLaws::first_point, crate::proofs::OrderLaws::later_point))]
    fn not_above(self) -> bool
        ensures { result ≡ not_above self.entry.register.now self.entry.i }
    {
        self.i > 0
            && wire::u64_at(self.bytes(), 0)
                <= wire::u64_at(row_at::<64>(self.register, self.i - 1), 0)
    }

    // Row j, which comes earlier, is of the same access point and has another supplier or supply direction.
    #[tactic(auto, unfolding(crate::specs::RegisterInner::differs_from))]
    fn differs_from(self, j: usize) -> bool
        requires { j < self.i }
        ensures { result ≡ differs_from self.entry.register.now self.entry.i j }
    {
        let a = self.bytes();
        let b: &[u8; 64] = row_at(self.register, j);
        wire::u64_at(a, 8) == wire::u64_at(b, 8)
            && !(wire::u64_at(a, 16) == wire::u64_at(b, 16)
                && wire::u8_at(a, 53) == wire::u8_at(b, 53))
    }

    // An earlier row differs from it.
    fn differs_earlier(self) -> bool
        ensures { result ≡ any_below (differs self.entry.register.now self.entry.i) self.entry.i }
    {
        (0..self.i).any(|j| self.differs_from(j))
    }

    // The same, where no access EAN of an earlier row is above `top`: none of them is this row's if that is.
    fn differs_below(self, top: u64) -> bool
        requires { Topped self.register.now self.i top }
        ensures { result ≡ any_below (differs self.entry.register.now self.entry.i) self.entry.i }
    {
        if top < self.access() {
            return false;
        }
        self.differs_earlier()
    }

    #[tactic(auto, unfolding(book::specs::Register::bad_point))]
    fn is_bad(self, version: u16, days: u32, top: u64) -> bool
        requires { (days ≤ 64) × Topped self.register.now self.i top }
        ensures { result ≡ bad_point version days self.entry.register.now self.entry.i }
    {
        let row = self.bytes();
        let good = numbers_good(row, days) && bytes_good(version, row);
        !good || (self.not_above() || self.differs_below(top))
    }
}

// The first bad row of n. Not `find`: the greatest access EAN so far goes along from row to row.
#[tactic(auto, using(crate::proofs::RegisterLaws::register_steps))]
pub fn judge_register(version: u16, register: &[u8], n: usize, days: u32) -> Option<usize>
    requires { (64 * n ≤ length register.now) × (days ≤ 64) }
    ensures { found_at result ≡ first (bad_point version days register.now) 0 n }
{
    let mut top = 0;
    for i in 0..n {
        let row = Row { register, i };
        if row.is_bad(version, days, top) {
            return Some(i);
        }
        top = top.max(row.access());
    }
    None
}
