// Which points and engagements a file and its series take.
ghost use Rattle.std.specs.Prelude.{◌≡◌, cond, ◌&&◌, ◌+◌, ◌*◌, ◌≤◌, eqb, length};
ghost use Rattle.book.specs.Register.{point_at};
ghost use Rattle.book.specs.Book.{Book};
ghost use Rattle.volumes.specs.Baseline.{point_of};
ghost use Rattle.volumes.specs.Series.{takes, receiver_of, partner_of, is_point, is_engagement};
ghost use Rattle.volumes.specs.SeriesInner.{taken_by, Told};

use crate::{FileSeries, Role};
use book::{Engagement, Point, Takers};
use kinds::Kind;

// Whether a kind's files take a point, by what its situation's byte said: the aggregated ones transfer points, the individual ones pass-through points.
#[tactic(auto, unfolding(volumes::specs::SeriesInner::taken_by))]
pub fn takes(kind: Kind, takers: Takers) -> bool
    ensures { result ≡ taken_by kind takers }
{
    match (kind, takers) {
        (Kind::Toe01, Takers::Aggregated) => true,
        (Kind::Toe02, Takers::Aggregated) => true,
        (Kind::Toe03, Takers::Individual) => true,
        _ => false,
    }
}

// The company that receives a point's file, and its partner there: the definitions' own two tables, each its columns.
#[tactic(auto, unfolding(volumes::specs::Series::receiver_of))]
pub fn receiver_of(kind: Kind, point: Point) -> u64
    ensures { result ≡ receiver_of kind point }
{
    match kind {
        Kind::Toe01 => point.fsp,
        Kind::Toe02 | Kind::Toe03 => point.supplier,
    }
}

#[tactic(auto, unfolding(volumes::specs::Series::partner_of))]
pub fn partner_of(kind: Kind, point: Point) -> u64
    ensures { result ≡ partner_of kind point }
{
    match kind {
        Kind::Toe01 => point.supplier,
        Kind::Toe02 => point.fsp,
        Kind::Toe03 => point.access,
    }
}

impl Role {
    // The receiver is the point's.
    pub fn receives(self, point: Point) -> bool
        ensures { result ≡ eqb (receiver_of self.kind point) self.receiver }
    {
        receiver_of(self.kind, point) == self.receiver
    }

    // The receiver's files take the point. That its takers are those of its situation is a clause, here and below: so they are in each register row (`told_at`). It
    // speaks of the file kinds, which are told in `volumes`, above the crate of `Point`, so it is no fact of that struct.
    pub fn takes(self, point: Point) -> bool
        requires { Told point }
        ensures { result ≡ (takes self.kind point.situation && eqb (receiver_of self.kind point) self.receiver) }
    {
        takes(self.kind, point.takers) & self.receives(point)
    }
}

impl FileSeries {
    // A point of the series: taken, with the receiver, the partner and the supply direction.
    pub fn has_point(self, point: Point) -> bool
        requires { Told point }
        ensures { result ≡ is_point self.role.kind self.role.receiver self.series point }
    {
        let partner = partner_of(self.role.kind, point) == self.series.partner;
        self.role.takes(point) & (partner & (point.supply == self.series.supply))
    }

    // An engagement of the series: of one of its points, in its delivery direction.
    pub fn has_engagement(self, point: Point, e: Engagement) -> bool
        requires { Told point }
        ensures { (b : Book) → point ≡ point_of b e → result ≡ is_engagement b self.role.kind self.role.receiver self.series e }
    {
        self.has_point(point) & (e.direction == self.series.delivery)
    }

    // The rows that an engagement has in the series: all of its own, or none.
    pub fn rows_of(self, register: &[u8], e: Engagement) -> usize
        requires { 64 * e.point + 64 ≤ length register.now }
        ensures { (b : Book) → point_of b e ≡ point_at register.now e.point → result ≡ cond (is_engagement b self.role.kind self.role.receiver self.series e) e.count 0 }
    {
        let point = book::register::point_at(register, e.point as usize);
        if self.has_engagement(point, e) {
            e.count as usize
        } else {
            0
        }
    }
}
