// The reader of a file.
#![tactic(auto)]

mod file;
mod partners;

ghost use Rattle.std.specs.Prelude.{◌≡◌};
ghost use Rattle.refusals.specs.Sent.{said};
ghost use Rattle.message.specs.Calls.{read_answer, ReadCalled};
ghost use Rattle.message.specs.Messages.{read_message};
ghost use Rattle.reader.specs.FileInner.{facts_in, RowsRead};

use cursor::Cursor;
use message::FileFacts;
use refusals::Refused;
use series_reader::rows::Rows;

// What all of a file says; its rows go into the numbers as far as these go.
fn facts(file: &[u8], numbers: &mut [u64]) -> Option<FileFacts>
    ensures facts { result ≡ facts_in (read_message file.now) }
    ensures rows { RowsRead (read_message file.now) numbers.old numbers.new }
{
    let mut c = Cursor::new(file);
    let mut rows = Rows { numbers, count: 0 };
    let said = crate::file::file(&mut c, &mut rows)?;
    if c.at != file.len() {
        return None;
    }
    Some(FileFacts {
        rows: rows.count,
        ..said
    })
}

// What reading a file answers where so many numbers of rows are lent; none is at hand (a refusal leaves the rows as they were).
#[tactic(auto, using(crate::proofs::FactsLaws::answers_none, crate::proofs::FactsLaws::answers_short, crate::proofs::FactsLaws::answers_file))]
pub fn judge(file: &[u8], lent: usize) -> Result<FileFacts, Refused>
    ensures { said result ≡ read_answer file.now lent }
{
    let mut none = [0u64; 0];
    let Some(said) = facts(file, &mut none) else {
        return Err(Refused::NoFile);
    };
    if lent / 6 < said.rows {
        return Err(Refused::Short(0));
    }
    Ok(said)
}

// A file is read: judged first, then read again into the lent rows.
#[tactic(auto, using(crate::proofs::FactsLaws::file_called, crate::proofs::FactsLaws::refusal_called))]
pub fn read(file: &[u8], rows: &mut [u64]) -> Result<FileFacts, Refused>
    ensures { ReadCalled file.now rows.old rows.new result }
{
    let said = judge(file, rows.len())?;
    facts(file, rows);
    Ok(said)
}
