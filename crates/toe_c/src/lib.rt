// The calls as functions that C and Rust can link: each answers one number. Their names and parameters are those of include/toe.h.
#![tactic(auto)]

ghost use Rattle.std.specs.Prelude.{◌≡◌, ◌≤◌, length};
ghost use Rattle.refusals.specs.Buffers.{over};
ghost use Rattle.refusals.specs.Sent.{said};
ghost use Rattle.toe_c.specs.Codes.{code_of, SettleCoded, SheetCoded, FileCoded, WriteCoded, fact_numbers, ReadCoded};
ghost use Rattle.toe_c.specs.SmallInner.{SmallReply};
ghost use Rattle.toe_c.specs.FactsInner.{FactsRead};

use message::FileFacts;
use refusals::Refused;

// An answer as one number: its count, or 2^63, the refusal's number times 2^32, and the item.
fn code(answer: Result<usize, Refused>) -> u64
    requires { SmallReply (said answer) }
    ensures { result ≡ code_of (said answer) }
{
    match answer {
        Ok(count) => count as u64,
        Err(refused) => {
            9223372036854775808 + refused.number() * 4294967296 + (refused.item() as u64)
        }
    }
}

// Settles a book into rows; answers how many.
#[unsafe(no_mangle)]
pub extern "C" fn toe_settle(book: &[u8], rows: &mut [i64]) -> u64
    ensures { SettleCoded book.now rows.old rows.new result }
{
    code(settlement::settle::settle_rows(book, rows))
}

// Fills a party's sheet; answers how many sums.
#[unsafe(no_mangle)]
pub extern "C" fn toe_sheet(book: &[u8], party: u16, sums: &mut [i64]) -> u64
    ensures { SheetCoded book.now party sums.old sums.new result }
{
    code(filing::sheet::sheet(book, party, sums))
}

// A receiver's file of a book, and the book's settlement rows; answers how many bytes.
#[unsafe(no_mangle)]
pub extern "C" fn toe_file(
    book: &[u8],
    kind: u8,
    receiver: u64,
    id: &[u8],
    moment: &[u8],
    rows: &mut [i64],
    file: &mut [u8],
) -> u64
    ensures { FileCoded book.now kind receiver id.now moment.now rows.old rows.new file.old file.new result }
{
    let answer = filing::file::file(book, kind, receiver, id, moment, rows, file);
    code(answer.map(|(_, count)| count))
}

// Kind, receiver, year and month of a file, and where its ID and its moment stand.
fn put_facts(f: FileFacts, facts: &mut [u64])
    requires { 8 ≤ length facts.old }
    ensures { facts.new ≡ over (fact_numbers f) facts.old }
{
    facts[..8].copy_from_slice(&[
        u64::from(f.kind),
        f.receiver,
        f.year,
        f.month,
        f.id as u64,
        f.id_length as u64,
        f.moment as u64,
        29,
    ]);
}

// Reads a file into rows of six numbers, and what it says beside them into the first eight of `facts`. Where there are fewer, 13 and 10 with item 0 come first.
fn read(file: &[u8], rows: &mut [u64], facts: &mut [u64]) -> Result<usize, Refused>
    ensures { FactsRead file.now rows.old rows.new facts.old facts.new (said result) }
{
    if facts.len() < 8 {
        reader::judge(file, rows.len())?;
        return Err(Refused::Short(1));
    }
    let told = reader::read(file, rows)?;
    put_facts(told, facts);
    Ok(told.rows)
}

// Reads a file into rows of six numbers, and what it says beside them into `facts`; answers how many rows.
#[unsafe(no_mangle)]
pub extern "C" fn toe_read(file: &[u8], rows: &mut [u64], facts: &mut [u64]) -> u64
    ensures { ReadCoded file.now rows.old rows.new facts.old facts.new result }
{
    code(read(file, rows, facts))
}

// Writes a file from rows of six numbers; answers how many bytes.
#[unsafe(no_mangle)]
pub extern "C" fn toe_write(
    kind: u8,
    receiver: u64,
    year: u64,
    month: u64,
    rows: &[u64],
    id: &[u8],
    moment: &[u8],
    file: &mut [u8],
) -> u64
    ensures { WriteCoded kind receiver year month rows.now id.now moment.now file.old file.new result }
{
    code(writer::writing::write(kind, receiver, year, month, rows, id, moment, file))
}
