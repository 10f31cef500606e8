// The file call: a receiver's file of a book, and the book's settlement rows.
ghost use Rattle.std.specs.Prelude.{◌≡◌, ◌*◌, ◌≤◌, length};
ghost use Rattle.std.proofs.Math.Option.{none};
ghost use Rattle.refusals.specs.Sent.{said};
ghost use Rattle.refusals.specs.SentInner.{refusal_in};
ghost use Rattle.book.specs.Book.{book_of};
ghost use Rattle.volumes.specs.Settlement.{row_width, row_count, book_refusal};
ghost use Rattle.reports.specs.FileRows.{file_text};
ghost use Rattle.reports.specs.Calls.{FileCalled};
ghost use Rattle.filing.specs.FileCallLaws.{asked_verdict, FileFilled};
ghost use Rattle.quarters.specs.QuartersInner.{longest_month};

use crate::laying::{measure_file, write_measured};
use book::Section;
use emitter::Stamp;
use kinds::Kind;
use partners::register::in_role;
use refusals::Refused;
use series::Role;
use series::delivered::fill_volumes;
use series::sums::Delivered;
use settlement::judge::judge_settlement;
use settlement::rows::ROW_WIDTH;
use settlement::settle::{fill_book, row_count};
use writer::FileRow;
use writer::writing::in_form;

// What is asked of an accepted book: a receiver in its role, an ID and a moment in form, and rows that are long enough.
fn judge_asked(book: &[u8], role: Role, stamp: Stamp, lent: usize) -> Result<(), Refused>
    requires { book_refusal book.now ≡ none }
    ensures { refusal_in result ≡ asked_verdict (book_of book.now) role.kind role.receiver stamp.entry.id.now stamp.entry.moment.now lent }
{
    if !in_role(settlement::sections::section(book, Section::Register), role) {
        return Err(Refused::Role);
    }
    if !in_form(stamp.id, stamp.moment) {
        return Err(Refused::Malformed);
    }
    if lent < ROW_WIDTH * row_count(book) {
        return Err(Refused::Short(0));
    }
    Ok(())
}

// The file of a book of known volumes: measured, then, if it fits, written, and the lent rows filled.
fn write_file(
    delivered: &Delivered,
    role: Role,
    stamp: Stamp,
    lent: &mut [i64],
    file: &mut [u8],
    rows: &mut [FileRow],
) -> Result<(usize, usize), Refused>
    requires { (row_width * row_count (book_of delivered.now.book.now) ≤ length lent.old) × (4 * longest_month ≤ length rows.old) }
    ensures { FileFilled (book_of delivered.now.book.now) (file_text (book_of delivered.now.book.now) role.kind role.receiver stamp.entry.id.now stamp.entry.moment.now) lent.old lent.new file.old file.new (said result) }
{
    let measured = measure_file(file.len(), delivered, role, stamp, rows);
    let (bytes, partners) = measured.ok_or(Refused::Short(1))?;
    fill_book(delivered.book, lent);
    write_measured(file, delivered, role, stamp, partners, rows);
    Ok((row_count(delivered.book), bytes))
}

// Fills the rows and the file of an accepted book. A partner has four series of a longest month at most.
fn fill_file(
    book: &[u8],
    role: Role,
    stamp: Stamp,
    rows: &mut [i64],
    file: &mut [u8],
) -> Result<(usize, usize), Refused>
    requires { (book_refusal book.now ≡ none) × (row_width * row_count (book_of book.now) ≤ length rows.old) }
    ensures { FileFilled (book_of book.now) (file_text (book_of book.now) role.kind role.receiver stamp.entry.id.now stamp.entry.moment.now) rows.old rows.new file.old file.new (said result) }
{
    let mut volumes = [0u64; quarters::MOST_ROWS];
    fill_volumes(book, &mut volumes);
    let mut own: [FileRow; 4 * quarters::LONGEST_MONTH] = [[0; 6]; 4 * quarters::LONGEST_MONTH];
    write_file(
        &Delivered::of(book, &volumes),
        role,
        stamp,
        rows,
        file,
        &mut own,
    )
}

// A receiver's file of a book: fills the settlement rows and the file, or changes nothing and says why. Its parameters are those of the C call (include/toe.h):
// the kind is a number, as C gives it.
pub fn file(
    book: &[u8],
    kind: u8,
    receiver: u64,
    id: &[u8],
    moment: &[u8],
    rows: &mut [i64],
    file: &mut [u8],
) -> Result<(usize, usize), Refused>
    ensures { FileCalled book.now kind receiver id.now moment.now rows.old rows.new file.old file.new (said result) }
{
    judge_settlement(book)?;
    let kind = Kind::try_from(u64::from(kind))?;
    let role = Role { kind, receiver };
    let stamp = Stamp { id, moment };
    judge_asked(book, role, stamp, rows.len())?;
    fill_file(book, role, stamp, rows, file)
}
