// A partner's file rows, filled from a book's delivered volumes: six numbers each, as the writer takes them.
ghost use Rattle.std.specs.Prelude.{◌≡◌, ◌∷◌, [], ◌+◌, ◌*◌, ◌≤◌, ◌<◌, length};
ghost use Rattle.book.specs.Book.{book_of};
ghost use Rattle.message.specs.Reading.{observed};
ghost use Rattle.partners.specs.ObservationsInner.{observation_if, observations_in};
ghost use Rattle.partners.specs.PartnerRowsInner.{row_of, rows_by, series_rows_of, partner_rows_of, FileRowsFilled};
ghost use Rattle.volumes.specs.Series.{series_of};
ghost use Rattle.quarters.specs.QuartersInner.{longest_month};

use book::{Direction, Supply};
use series::sums::Delivered;
use series::{FileSeries, Role};
use volumes::Series;
use writer::FileRow;

// A row at `at`, with the directions' numbers; the place behind it.
fn push_row(rows: &mut [FileRow], at: usize, s: Series, position: u64, watts: u64) -> usize
    requires { at < length rows.old }
    ensures { FileRowsFilled (row_of s (observed (position, watts)) ∷ []) rows.old at rows.new result }
{
    let (supply, delivery) = (s.supply as u64, s.delivery as u64);
    rows[at] = [s.partner, supply, delivery, position, watts, 0];
    at + 1
}

// A position's row, if it has watts.
fn push_position(rows: &mut [FileRow], at: usize, s: Series, position: u64, watts: u64) -> usize
    requires { at < length rows.old }
    ensures { FileRowsFilled (rows_by s (observation_if position watts)) rows.old at rows.new result }
{
    if watts == 0 {
        return at;
    }
    push_row(rows, at, s, position, watts)
}

// The rows of a series whose watts stand by position.
pub fn push_watts(rows: &mut [FileRow], start: usize, s: Series, watts: &[u64]) -> usize
    requires { start + length watts.now ≤ length rows.old }
    ensures { FileRowsFilled (rows_by s (observations_in watts.now (length watts.now))) rows.old start rows.new result }
{
    let mut at = start;
    for (i, power) in watts.iter().enumerate() {
        at = push_position(rows, at, s, i as u64 + 1, *power);
    }
    at
}

// The rows of a series of a book, from `at` on.
pub fn fill_series(delivered: &Delivered, s: FileSeries, rows: &mut [FileRow], at: usize) -> usize
    requires { at + longest_month ≤ length rows.old }
    ensures { FileRowsFilled (series_rows_of (book_of delivered.now.book.now) s.role.kind s.role.receiver s.series) rows.old at rows.new result × (result ≤ at + longest_month) }
{
    let mut watts = [0u64; quarters::LONGEST_MONTH];
    delivered.series_watts(s, &mut watts);
    push_watts(rows, at, s.series, &watts[..delivered.c.month_quarters()])
}

// A partner's series of a receiver's file.
fn series_to(role: Role, partner: u64, supply: Supply, delivery: Direction) -> FileSeries
    ensures { (result.role ≡ role) × (result.series ≡ series_of partner supply delivery) }
{
    let series = Series {
        partner,
        supply,
        delivery,
    };
    FileSeries { role, series }
}

// The rows of a partner, four series of a longest month at most: how many they are. Any slice that long will do; an array's type would ask more of callers.
pub fn fill_partner(delivered: &Delivered, role: Role, partner: u64, rows: &mut [FileRow]) -> usize
    requires { 4 * longest_month ≤ length rows.old }
    ensures { FileRowsFilled (partner_rows_of (book_of delivered.now.book.now) role.kind role.receiver partner) rows.old 0 rows.new result × (result ≤ 4 * longest_month) }
{
    let mut at = 0;
    for (supply, delivery) in [
        (Supply::OffTake, Direction::Up),
        (Supply::OffTake, Direction::Down),
        (Supply::Injection, Direction::Up),
        (Supply::Injection, Direction::Down),
    ] {
        let series = series_to(role, partner, supply, delivery);
        at = fill_series(delivered, series, rows, at);
    }
    at
}
