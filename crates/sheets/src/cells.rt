// What settlement rows add to the cells of a sheet, one for each quarter-hour of the month.
ghost use Rattle.std.specs.Prelude.{◌≡◌, cond, ◌*◌, ◌≤◌, eqb, pos, length};
ghost use Rattle.volumes.specs.Settlement.{row_width};
ghost use Rattle.volumes.specs.SoundInner.{Bounded};
ghost use Rattle.sheets.specs.AddsInner.{adds, Addable};
ghost use Rattle.sheets.specs.SharesInner.{correction_most, gets, gets_of, RowsSmall};

use book::Point;
use settlement::rows::ROW_WIDTH;

// A column's correction, if the party stands in the column.
fn amount(column: u16, party: u16, correction: i64) -> i64
    ensures { result ≡ cond (eqb column party) correction (pos 0) }
{
    if column == party { correction } else { 0 }
}

// A party at a point, in a book of a version.
#[derive(Clone, Copy, Debug, PartialEq, Eq)]
pub struct Share {
    pub version: u16,
    pub party: u16,
    pub point: Point,
}

impl Share {
    // What the party gets of the three corrections of a quarter-hour: all whose columns it stands in; there is an injection column from version 2 on.
    fn of(self, source: i64, fsp: i64, injection: i64) -> i64
        requires { Bounded correction_most source × Bounded correction_most fsp × Bounded correction_most injection }
        ensures { result ≡ gets self.version self.party self.point source fsp injection }
    {
        let point = self.point;
        let two = amount(point.sourceparty, self.party, source)
            + amount(point.fspparty, self.party, fsp);
        if !book::header::splits(self.version) {
            return two;
        }
        two + amount(point.injectionparty, self.party, injection)
    }

    // Adds what the party gets of rows, one to each cell. By place: over `zip` a turn would tell of the pair's iterator and no longer of the cells (see series
    // `add_volumes`).
    pub fn add_rows(self, rows: &[i64], sums: &mut [i64])
        requires { (row_width * length sums.old ≤ length rows.now) × RowsSmall rows.now (length sums.old) × Addable sums.old 0 (gets_of self.version self.party self.point rows.now (length sums.old)) }
        ensures { sums.new ≡ adds sums.old 0 (gets_of self.version self.party self.point rows.now (length sums.old)) }
    {
        let (rows, _) = rows.as_chunks::<ROW_WIDTH>();
        for (k, sum) in sums.iter_mut().enumerate() {
            let [_, _, source, fsp, injection] = rows[k];
            *sum += self.of(source, fsp, injection);
        }
    }
}
