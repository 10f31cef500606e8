// The sheet call.
ghost use Rattle.refusals.specs.Sent.{said};
ghost use Rattle.reports.specs.Calls.{SheetCalled};

use book::Section;
use refusals::Refused;

// Fills a party's sheet of a book, or changes nothing and says why.
pub fn sheet(book: &[u8], party: u16, sums: &mut [i64]) -> Result<usize, Refused>
    ensures { SheetCalled book.now party sums.old sums.new (said result) }
{
    settlement::judge::judge_settlement(book)?;
    let version = book::header::version_of(book);
    let register = settlement::sections::section(book, Section::Register);
    if !sheets::parties::is_party(version, register, party) {
        return Err(Refused::Role);
    }
    let count = sheets::fill::sheet_length(book);
    if sums.len() < count {
        return Err(Refused::Short(0));
    }
    sheets::fill::fill_sheet(book, party, sums);
    Ok(count)
}
