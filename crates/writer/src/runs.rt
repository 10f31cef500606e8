// Neighbouring rows of one partner, and of the same directions.
ghost use Rattle.std.specs.Prelude.{◌≡◌, map, length, MatchOption, List, ℕ, Bool};
ghost use Rattle.std.specs.Fn.{ComputesOnPairs};
ghost use Rattle.message.specs.Keys.{number_keys, directions_keys};
ghost use Rattle.message.specs.Group.{group};
ghost use Rattle.writer.specs.RowsInner.{row_in};
ghost use Rattle.writer.specs.RunsInner.{directed_in, goes_with, IsRun, FirstRun};

use crate::FileRow;

// Whether two rows are of one partner.
fn same_partner(row: &FileRow, next: &FileRow) -> bool
    ensures { result ≡ goes_with number_keys row_in row.now next.now }
{
    row[0] == next[0]
}

// Whether two rows have the same directions.
fn same_directions(row: &FileRow, next: &FileRow) -> bool
    ensures { result ≡ goes_with directions_keys directed_in row.now next.now }
{
    (row[1], row[2]) == (next[1], next[2])
}

// How many partners rows have. It and the next are one call each of another test, and what they promise is of other keys.
pub fn count_partners(rows: &[FileRow]) -> usize
    ensures { result ≡ length (group number_keys (map row_in rows.now)) }
{
    rows.chunk_by(same_partner).count()
}

// How many series rows of one partner have.
pub fn count_series(rows: &[FileRow]) -> usize
    ensures { result ≡ length (group directions_keys (map (λ x. x.1) (map row_in rows.now))) }
{
    rows.chunk_by(same_directions).count()
}

// The rows of the first run by a test of two that follow each other, and those behind them.
fn split_run<'a, F: FnMut(&FileRow, &FileRow) -> bool>(
    rows: &'a [FileRow],
    same: F,
) -> Option<(&'a [FileRow], &'a [FileRow])>
    requires { F.IsAlwaysCallable same }
    ensures { (e : List ℕ → List ℕ → Bool) → ComputesOnPairs F.FnMut e same → MatchOption result (length rows.now ≡ 0) (λ r. IsRun e rows.now r.0.now r.1.now) }
{
    let run = rows.chunk_by(same).next()?;
    Some(rows.split_at(run.len()))
}

// The rows of the first partner, and those behind them. It and the next are one call each of another test, as above.
pub fn split_partner(rows: &[FileRow]) -> Option<(&[FileRow], &[FileRow])>
    ensures { MatchOption result (length rows.now ≡ 0) (λ r. FirstRun number_keys row_in rows.now r.0.now r.1.now) }
{
    split_run(rows, same_partner)
}

// The rows of the first series, and those behind them.
pub fn split_series(rows: &[FileRow]) -> Option<(&[FileRow], &[FileRow])>
    ensures { MatchOption result (length rows.now ≡ 0) (λ r. FirstRun directions_keys directed_in rows.now r.0.now r.1.now) }
{
    split_run(rows, same_directions)
}
