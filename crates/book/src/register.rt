// Section 3: the register of delivery points.
ghost use Rattle.std.specs.Prelude.{◌≡◌, ◌+◌, ◌*◌, ◌≤◌, ◌<◌, length};
ghost use Rattle.book.specs.Register.{situation_of, supply_of, method_of, takers_of, point_of, point_at, excludes};

use crate::sections::row_at;
use crate::{Method, Point, Situation, Supply, Takers};

// The situation's byte decides which file kinds take the point. Document 01 names this form: a match on the byte, other values refused.
pub fn takers_of(situation: u8) -> Takers
    ensures { result ≡ takers_of situation }
{
    match situation {
        0 => Takers::Aggregated,
        1 => Takers::Individual,
        2 => Takers::Neither,
        3 => Takers::Neither,
        _ => Takers::Refused,
    }
}

// Total, here and below, since reading a row can't fail: a byte that judging refuses counts as the last.
impl From<u8> for Situation {
    ghost from_gives = { λ byte situation. situation ≡ situation_of byte };

    fn from(byte: u8) -> Situation {
        match byte {
            0 => Situation::Transfer,
            1 => Situation::PassThrough,
            2 => Situation::OptOut,
            _ => Situation::NetInjector,
        }
    }
}

impl From<u8> for Supply {
    ghost from_gives = { λ byte supply. supply ≡ supply_of byte };

    fn from(byte: u8) -> Supply {
        match byte {
            0 => Supply::OffTake,
            _ => Supply::Injection,
        }
    }
}

impl From<u8> for Method {
    ghost from_gives = { λ byte method. method ≡ method_of byte };

    fn from(byte: u8) -> Method {
        match byte {
            0 => Method::LastQuarter,
            1 => Method::HighXOfY,
            _ => Method::Adjusted,
        }
    }
}

// The delivery point that a row describes.
fn point_of(row: &[u8; 64]) -> Point
    ensures { result ≡ point_of row.now }
{
    let situation = wire::u8_at(row, 52);
    Point {
        delivery: wire::u64_at(row, 0),
        access: wire::u64_at(row, 8),
        supplier: wire::u64_at(row, 16),
        fsp: wire::u64_at(row, 24),
        mask: wire::u64_at(row, 32),
        upward: wire::u32_at(row, 40),
        downward: wire::u32_at(row, 44),
        sourceparty: wire::u16_at(row, 48),
        fspparty: wire::u16_at(row, 50),
        injectionparty: wire::u16_at(row, 56),
        situation: Situation::from(situation),
        takers: takers_of(situation),
        supply: Supply::from(wire::u8_at(row, 53)),
        method: Method::from(wire::u8_at(row, 54)),
    }
}

// Row i of the register. That it stands there is a clause, here and in `engagement_at`: a struct of a row, as `searches` has, is made where several methods ask
// it; here one function does.
pub fn point_at(register: &[u8], i: usize) -> Point
    requires { 64 * i + 64 ≤ length register.now }
    ensures { result ≡ point_at register.now i }
{
    point_of(row_at(register, i))
}

// Whether the mask excludes a day: bit `day`, counted from the lowest. It is a bit's number: a type for it would be made at each call, with this clause at its
// maker.
pub fn excludes(mask: u64, day: u32) -> bool
    requires { day < 64 }
    ensures { result ≡ excludes mask day }
{
    (mask >> day) & 1 == 1
}
