// Settling a book: its rows, or why there are none.
ghost use Rattle.std.specs.Prelude.{◌≡◌, ◌*◌, ◌≤◌, length};
ghost use Rattle.std.proofs.Math.Option.{none};
ghost use Rattle.std.proofs.lemmas.List.Edits.{sets};
ghost use Rattle.refusals.specs.Sent.{said};
ghost use Rattle.book.specs.Judged.{refusal_of};
ghost use Rattle.book.specs.Book.{book_of};
ghost use Rattle.volumes.specs.Settlement.{row_width, rows, row_count, book_refusal};
ghost use Rattle.settlement.specs.SectionsInner.{engagement_count_in, row_count_in};
ghost use Rattle.settlement.specs.Calls.{SettleCalled, settled_by};
ghost use Rattle.settlement.specs.CallsInner.{RowsSent};

use crate::days::MOST_POINTS;
use crate::opened::OpenBook;
use crate::rows::ROW_WIDTH;
use book::Section;
use refusals::Refused;

// The number of rows, or a refusal with its item.
#[derive(Clone, Copy, Debug, PartialEq, Eq)]
pub enum Settled {
    Rows(usize),
    Refused(u64, usize),
}

// Document 01's form of an answer: a refusal by its number and item.
impl From<Result<usize, Refused>> for Settled {
    ghost from_gives = { λ answer settled. settled ≡ settled_by answer };

    fn from(answer: Result<usize, Refused>) -> Settled {
        match answer {
            Ok(count) => Settled::Rows(count),
            Err(refused) => Settled::Refused(refused.number(), refused.item()),
        }
    }
}

// The rows of a section of engagements: their quarter-hours, at most 255 for each of 512. By row number: see book `row_at`.
pub fn count_rows(engagements: &[u8]) -> usize
    requires { engagement_count_in engagements.now ≤ 512 }
    ensures { (result ≡ row_count_in engagements.now) × (result ≤ 130560) }
{
    let mut count = 0;
    for i in 0..engagements.len() / 16 {
        count += book::engagements::engagement_at(engagements, i).count as usize;
    }
    count
}

// The rows of a book that passes refusals 1 to 7.
pub fn row_count(book: &[u8]) -> usize
    requires { refusal_of book.now ≡ none }
    ensures { (result ≡ row_count (book_of book.now)) × (result ≤ 130560) }
{
    count_rows(crate::sections::section(book, Section::Engagements))
}

// The rows of a book that refusals 1 to 9 pass.
pub fn fill_book(book: &[u8], out: &mut [i64])
    requires { (book_refusal book.now ≡ none) × (row_width * row_count (book_of book.now) ≤ length out.old) }
    ensures { out.new ≡ sets out.old 0 (rows (book_of book.now)) }
{
    let mut engaged = [0u64; MOST_POINTS];
    OpenBook::of(book, &mut engaged).settle(out);
}

// The number of a book's rows, which are filled; or why it is refused, with nothing changed.
pub fn settle_rows(book: &[u8], out: &mut [i64]) -> Result<usize, Refused>
    ensures { RowsSent book.now out.old out.new (said result) }
{
    judging::judge::judge_book(book)?;
    let mut engaged = [0u64; MOST_POINTS];
    let opened = OpenBook::of(book, &mut engaged);
    opened.judge()?;
    let count = row_count(book);
    if out.len() < ROW_WIDTH * count {
        return Err(Refused::Short(0));
    }
    opened.settle(out);
    Ok(count)
}

// Settles a book: fills its rows, or changes nothing and says why.
pub fn settle(book: &[u8], rows: &mut [i64]) -> Settled
    ensures { SettleCalled book.now rows.old rows.new result }
{
    Settled::from(settle_rows(book, rows))
}
