// Section 5: the engagements.
ghost use Rattle.std.specs.Prelude.{◌≡◌, ◌+◌, ◌*◌, ◌≤◌, length};
ghost use Rattle.book.specs.Engagements.{direction_of, engagement_of, engagement_at};

use crate::sections::row_at;
use crate::{Direction, Engagement};

// Total, since reading a row can't fail: a byte that judging refuses counts as the last.
impl From<u8> for Direction {
    ghost from_gives = { λ byte direction. direction ≡ direction_of byte };

    fn from(byte: u8) -> Direction {
        match byte {
            0 => Direction::Up,
            _ => Direction::Down,
        }
    }
}

fn engagement_of(row: &[u8; 16]) -> Engagement
    ensures { result ≡ engagement_of row.now }
{
    Engagement {
        point: wire::u16_at(row, 0),
        day: wire::u8_at(row, 2),
        first: wire::u8_at(row, 3),
        count: wire::u8_at(row, 4),
        direction: Direction::from(wire::u8_at(row, 5)),
        notice: wire::u8_at(row, 6),
        requested: wire::u32_at(row, 8),
    }
}

// Row i of the engagements. That it stands there is a clause, as in register `point_at`.
pub fn engagement_at(engagements: &[u8], i: usize) -> Engagement
    requires { 16 * i + 16 ≤ length engagements.now }
    ensures { result ≡ engagement_at engagements.now i }
{
    engagement_of(row_at(engagements, i))
}
