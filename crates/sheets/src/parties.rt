// Whether a party stands in the register.
ghost use Rattle.std.specs.Prelude.{◌≡◌, ◌+◌, ◌*◌, ◌≤◌, length};
ghost use Rattle.volumes.specs.Sheets.{parties_of};
ghost use Rattle.integers.specs.Counts.{stands};
ghost use Rattle.sheets.specs.PartiesInner.{parties_in, in_row};

use book::Point;

// It is a point's source balance party, its FSP balance party or, from version 2 on, its injection party.
fn in_columns(version: u16, point: Point, party: u16) -> bool
    ensures { result ≡ stands party (parties_of version point) }
{
    (point.sourceparty == party)
        | (point.fspparty == party)
        | (book::header::splits(version) & (point.injectionparty == party))
}

// It is one of row i's. By row number: see book `row_at`.
#[tactic(auto, unfolding(crate::specs::PartiesInner::in_row))]
fn in_row(version: u16, register: &[u8], party: u16, i: usize) -> bool
    requires { 64 * i + 64 ≤ length register.now }
    ensures { result ≡ in_row version register.now party i }
{
    in_columns(version, book::register::point_at(register, i), party)
}

// It is one of some point of the register of a book of this version.
pub fn is_party(version: u16, register: &[u8], party: u16) -> bool
    ensures { result ≡ stands party (parties_in version register.now) }
{
    (0..register.len() / 64).any(|i| in_row(version, register, party, i))
}
