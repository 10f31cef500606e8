// The writer's cases.
ghost use Rattle.std.specs.Prelude.{◌≤◌, length};

use crate::parts::{between, part, split_rows};
use crate::reading::kind_byte;
use crate::{FILE_ROOM, ROWS_ROOM};
use cases::hex::Hex;
use cases::words::Words;
use cases::{answers, lent};
use message::FileFacts;
use std::io;

// What a file is written of beside its rows, its ID and its moment. The kind is a number, as the write call takes it.
#[derive(Clone, Copy, Debug, PartialEq, Eq)]
struct Head {
    kind: u8,
    receiver: u64,
    year: u64,
    month: u64,
}

impl Head {
    fn of(facts: FileFacts) -> Head {
        Head {
            kind: kind_byte(facts.kind),
            receiver: facts.receiver,
            year: facts.year,
            month: facts.month,
        }
    }
}

// What a file is written of, how many bytes are lent, and between which places those that are written are printed.
#[derive(Clone, Copy, Debug, PartialEq, Eq)]
struct WriteCase {
    head: Head,
    id: Hex<80>,
    moment: Hex<80>,
    lent: usize,
    from: usize,
    to: usize,
}

// Whether what is read of a file is what it was written of.
fn read_back(case: &WriteCase, rows: &[u64], file: &[u8]) -> bool {
    let mut again = [0; ROWS_ROOM];
    let Ok(facts) = reader::read(file, &mut again) else {
        return false;
    };
    Head::of(facts) == case.head
        && part(file, facts.id, facts.id_length) == case.id.as_slice()
        && part(file, facts.moment, 29) == case.moment.as_slice()
        && split_rows(&again, facts.rows).0 == rows
}

// The bytes between two places of the n that were written, which are to be read back; the bytes behind those n are to be kept.
fn answer_bytes(
    rt: &impl Print,
    case: &WriteCase,
    rows: &[u64],
    file: &[u8],
    n: usize,
) -> io::Result<()> {
    let (written, rest) = file.split_at(n.min(file.len()));
    rt.write_all(between(written, case.from, case.to))?;
    println!(rt)?;
    lent::kept(rt, rest)?;
    if !read_back(case, rows, written) {
        println!(rt; "not read back")?;
    }
    Ok(())
}

// Writes from rows into as many bytes of file as are lent.
fn write_rows(rt: &impl Print, case: &WriteCase, rows: &[u64], file: &mut [u8]) -> io::Result<()> {
    lent::prepare(file);
    let lent = case.lent.min(file.len());
    let answer = writer::writing::write(
        case.head.kind,
        case.head.receiver,
        case.head.year,
        case.head.month,
        rows,
        case.id.as_slice(),
        case.moment.as_slice(),
        &mut file[..lent],
    );
    match answer {
        Ok(n) => answer_bytes(rt, case, rows, file, n),
        Err(refused) => answers::refusal(rt, &refused, file),
    }
}

// `COUNT NUMBER ..`: puts the numbers into rows; answers how many.
fn load_rows(mut words: Words, rows: &mut [u64]) -> usize
    ensures { result ≤ length rows.old }
{
    let n = (words.number().unwrap_or(0) as usize).min(rows.len());
    for number in &mut rows[..n] {
        *number = words.number().unwrap_or(0);
    }
    n
}

// `KIND RECEIVER YEAR MONTH FILE ID MOMENT COUNT NUMBER ..`: prints the file's bytes between two places.
pub fn write_case(rt: &impl Print, mut words: Words, from: usize, to: usize) -> io::Result<()> {
    let mut file = [0; FILE_ROOM];
    let mut rows = [0; ROWS_ROOM];
    let head = Head {
        kind: (words.number().unwrap_or(0) % 256) as u8,
        receiver: words.number().unwrap_or(0),
        year: words.number().unwrap_or(0),
        month: words.number().unwrap_or(0),
    };
    let case = WriteCase {
        head,
        lent: words.number().unwrap_or(0) as usize,
        id: words.hex().unwrap_or_default(),
        moment: words.hex().unwrap_or_default(),
        from,
        to,
    };
    let n = load_rows(words, &mut rows);
    write_rows(rt, &case, &rows[..n], &mut file)
}

// `FROM TO` and then the words of such a case.
pub fn part_case(rt: &impl Print, mut words: Words) -> io::Result<()> {
    let from = words.number().unwrap_or(0) as usize;
    let to = words.number().unwrap_or(0) as usize;
    write_case(rt, words, from, to)
}
