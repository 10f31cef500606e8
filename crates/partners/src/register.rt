// The receiver of a file and its partners, by the register.
ghost use Rattle.std.specs.Prelude.{◌≡◌, map, ◌+◌, ◌*◌, ◌≤◌, ◌<◌, length, unwrap_or, IfSome};
ghost use Rattle.volumes.specs.Series.{receiver_of};
ghost use Rattle.reports.specs.Calls.{stands};
ghost use Rattle.partners.specs.PartnersInner.{points_in, receives_at, partner_column, no_partner, NextIn};
ghost use Rattle.partners.specs.PartnersLaws.{nearer};

use series::Role;
use series::points::partner_of;

// Partner numbers are company numbers and EANs: all are below this one. It is a bound and no mark: where no partner is found the answer is None.
pub const NO_PARTNER: u64 = 1000000000000000000;

// Whether row i has the receiver. By row number: see book `row_at`.
#[tactic(auto, unfolding(crate::specs::PartnersInner::receives_at))]
fn receives_at(register: &[u8], role: Role, i: usize) -> bool
    requires { 64 * i + 64 ≤ length register.now }
    ensures { result ≡ receives_at register.now role.kind role.receiver i }
{
    role.receives(book::register::point_at(register, i))
}

// Whether a receiver is in its role in the register.
pub fn in_role(register: &[u8], role: Role) -> bool
    ensures { result ≡ stands role.receiver (map (receiver_of role.kind) (points_in register.now)) }
{
    (0..register.len() / 64).any(|i| receives_at(register, role, i))
}

// The nearer of two: a taken point's partner that is not below `low`, if it is below `next`. The flag is the definition's: there, too, `nearer` is asked of every
// point. The bound stands for no partner: the register's bytes may be any, and `is_none_or` would take a number from the bound on.
fn nearer(taken: bool, low: u64, partner: u64, next: Option<u64>) -> Option<u64>
    requires { IfSome next (λ n. n < no_partner) }
    ensures { (unwrap_or result no_partner ≡ nearer taken low partner (unwrap_or next no_partner)) × IfSome result (λ n. n < no_partner) }
{
    if taken & ((low <= partner) & (partner < next.unwrap_or(NO_PARTNER))) {
        return Some(partner);
    }
    next
}

// The least partner number from `low` on of the receiver's taken points, if there is one. By row number (book `row_at`): the least so far goes along.
pub fn next_partner(register: &[u8], role: Role, low: u64) -> Option<u64>
    ensures { NextIn low (partner_column (points_in register.now) role.kind role.receiver) result }
{
    let mut next = None;
    for i in 0..register.len() / 64 {
        let point = book::register::point_at(register, i);
        let partner = partner_of(role.kind, point);
        next = nearer(role.takes(point), low, partner, next);
    }
    next
}
