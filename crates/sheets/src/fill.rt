// A party's sheet of a book.
ghost use Rattle.std.specs.Prelude.{◌≡◌, ◌++◌, ◌≤◌, ◌<◌, length, drop};
ghost use Rattle.std.proofs.Math.Option.{none};
ghost use Rattle.book.specs.Engagements.{engagement_at};
ghost use Rattle.book.specs.Book.{book_of};
ghost use Rattle.book.specs.Judged.{refusal_of};
ghost use Rattle.quarters.specs.Quarters.{month_quarters};
ghost use Rattle.volumes.specs.Settlement.{refusal_number, settlement_refusal, book_refusal};
ghost use Rattle.volumes.specs.Sheets.{sheet};
ghost use Rattle.settlement.specs.SectionsInner.{engagement_count_in};
ghost use Rattle.settlement.specs.OpenedInner.{book_in};
ghost use Rattle.sheets.specs.AddsInner.{adds, Addable};
ghost use Rattle.sheets.specs.SharesInner.{corrections_for, first_cell};

use crate::cells::Share;
use settlement::days::MOST_POINTS;
use settlement::opened::OpenBook;
use settlement::rows::ROW_WIDTH;

// Adds a party's corrections of engagement i. A longest day has no more rows.
fn add_engagement(opened: &OpenBook, i: usize, party: u16, sums: &mut [i64])
    requires { (i < engagement_count_in opened.now.engagements.now) × (refusal_number (book_in opened.now) (engagement_at opened.now.engagements.now i) ≡ none) × Addable sums.old (first_cell opened.now.c.calendar (engagement_at opened.now.engagements.now i)) (corrections_for (book_in opened.now) party (engagement_at opened.now.engagements.now i)) }
    ensures { sums.new ≡ adds sums.old (first_cell opened.now.c.calendar (engagement_at opened.now.engagements.now i)) (corrections_for (book_in opened.now) party (engagement_at opened.now.engagements.now i)) }
{
    let e = opened.engagement(i);
    let share = Share {
        version: opened.version,
        party,
        point: book::register::point_at(opened.register, e.point as usize),
    };
    let mut rows = [0i64; ROW_WIDTH * quarters::LONGEST_DAY];
    opened.settle_engagement_at(i, &mut rows);
    let at = opened.c.calendar.cell_of(e.day, e.first);
    share.add_rows(&rows, &mut sums[at..at + e.count as usize]);
}

// Fills the sheet of a party, of a book no engagement of which is refused.
pub fn fill_cells(opened: &OpenBook, party: u16, sums: &mut [i64])
    requires { (settlement_refusal (book_in opened.now) ≡ none) × (month_quarters opened.now.c.calendar ≤ length sums.old) }
    ensures { sums.new ≡ sheet (book_in opened.now) party ++ drop (month_quarters opened.now.c.calendar) sums.old }
{
    sums[..opened.c.month_quarters()].fill(0);
    for i in 0..opened.count() {
        add_engagement(opened, i, party, sums);
    }
}

// How many cells a sheet of a book has that passes refusals 1 to 7.
pub fn sheet_length(book: &[u8]) -> usize
    requires { refusal_of book.now ≡ none }
    ensures { result ≡ month_quarters (book_of book.now).calendar }
{
    book::header::calendar_of(book).month_quarters()
}

// Fills the sheet of a party, of a book that refusals 1 to 9 pass; what stands behind it is left.
pub fn fill_sheet(book: &[u8], party: u16, sums: &mut [i64])
    requires { (book_refusal book.now ≡ none) × (month_quarters (book_of book.now).calendar ≤ length sums.old) }
    ensures { sums.new ≡ sheet (book_of book.now) party ++ drop (month_quarters (book_of book.now).calendar) sums.old }
{
    let mut engaged = [0u64; MOST_POINTS];
    fill_cells(&OpenBook::of(book, &mut engaged), party, sums);
}
