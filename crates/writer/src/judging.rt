// Whether rows are those of a file.
ghost use Rattle.std.specs.Prelude.{◌≡◌, ◌&&◌, map, ◌^◌, ◌≤◌, length};
ghost use Rattle.std.specs.List.{list_all};
ghost use Rattle.message.specs.Bytes.{digits};
ghost use Rattle.writer.specs.Order.{ordered};
ghost use Rattle.writer.specs.Rows.{one_supply, is_rows};
ghost use Rattle.writer.specs.RowsInner.{row_in, is_six, row_earlier};

use crate::FileRow;
use kinds::Kind;

// One more than the greatest number of a partner.
#[tactic(auto, unfolding(message::specs::Bytes::digits))]
fn number_limit(kind: Kind) -> u64
    ensures { result ≡ 10 ^ digits kind }
{
    match kind {
        Kind::Toe01 | Kind::Toe02 => 10000000000,
        Kind::Toe03 => 1000000000000000000,
    }
}

// Whether a partner may have series of both supply directions.
#[tactic(auto, unfolding(crate::specs::Rows::one_supply))]
fn one_supply(kind: Kind, a: u64, b: u64) -> bool
    ensures { result ≡ one_supply kind a b }
{
    match kind {
        Kind::Toe01 | Kind::Toe02 => true,
        Kind::Toe03 => a == b,
    }
}

// Whether six numbers are a row.
#[tactic(auto, unfolding(crate::specs::Rows::is_number, crate::specs::Rows::is_directions, crate::specs::Rows::is_observation))]
fn is_row(kind: Kind, last: u64, row: &FileRow) -> bool
    ensures { result ≡ is_six kind last row.now }
{
    let [number, supply, delivery, position, watts, zero] = *row;
    let limit = number_limit(kind);
    ((number < limit)
        & (((supply < 2) & (delivery < 2))
            & (((1 <= position) & (position <= last)) & ((1 <= watts) & (watts < 1000000000000)))))
        & (zero == 0)
}

// Whether a row may stand before the next: partners rise, then directions, then positions.
// The definition (`row_earlier`) has these cases; tried as one comparison of tuples, neither `search` nor `grind` found its last case within their limits.
#[tactic(auto, unfolding(crate::specs::Rows::later))]
fn row_before(kind: Kind, row: &FileRow, next: &FileRow) -> bool
    ensures { result ≡ row_earlier kind (row_in row.now) (row_in next.now) }
{
    if row[0] != next[0] {
        return row[0] < next[0];
    }
    let directions = (row[1], row[2]);
    let later = (next[1], next[2]);
    if directions == later {
        return row[3] < next[3];
    }
    directions < later && one_supply(kind, row[1], next[1])
}

// Whether the next is a row, and may stand behind this one.
fn goes_on(kind: Kind, last: u64, row: &FileRow, next: &FileRow) -> bool
    ensures { result ≡ (is_six kind last next.now && row_earlier kind (row_in row.now) (row_in next.now)) }
{
    is_row(kind, last, next) && row_before(kind, row, next)
}

// Whether each is a row, and each may stand before the next; at least one. It goes over them once, up to the first that isn't or may not.
fn in_rows(kind: Kind, last: u64, rows: &[FileRow]) -> bool
    requires { 1 ≤ length rows.now }
    ensures { result ≡ (list_all (is_six kind last) rows.now && ordered (row_earlier kind) (map row_in rows.now)) }
{
    if !is_row(kind, last, &rows[0]) {
        return false;
    }
    rows.is_sorted_by(|row, next| goes_on(kind, last, row, next))
}

// Whether rows are those of a file of that kind, receiver, year and month.
pub fn judge_rows(kind: Kind, receiver: u64, year: u64, month: u64, numbers: &[u64]) -> bool
    ensures { result ≡ is_rows kind receiver year month numbers.now }
{
    let (rows, rest) = numbers.as_chunks::<6>();
    if 9999999999 < receiver {
        return false;
    }
    if !rest.is_empty() {
        return false;
    }
    if rows.is_empty() {
        return (year == 0) & (month == 0);
    }
    if !message::is_period(year, month) {
        return false;
    }
    in_rows(kind, message::last_position(year, month), rows)
}
