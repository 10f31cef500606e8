// Asks for a receiver's file of the book of each line of standard input, with as many numbers and bytes lent as the line says.
// Prints the settlement rows and the file, or the refusal, and `changed` if what is no part of the answer is not as it was.
#![tactic(auto)]

ghost use Rattle.std.specs.Prelude.{◌*◌, ◌≤◌, length, IfOk};
ghost use Rattle.file_vectors.specs.CaseInner.{Says};
ghost use Rattle.volumes.specs.Settlement.{row_width};

use cases::hex::Hex;
use cases::input::FromWords;
use cases::words::Words;
use cases::{answers, lent};
use refusals::Refused;
use settlement::rows::ROW_WIDTH;
use std::io;

// How much of the input is read, and room for the largest book: 180 points, 33 days.
const TEXT_MOST: u64 = 400000;

const BOOK_ROOM: usize = 2400000;

// Room for the rows and the file of each case.
const ROWS_ROOM: usize = 8704;

const FILE_ROOM: usize = 66048;

// What is asked for of a book, and how many numbers and bytes are lent. The kind is a number, as the call takes it.
#[derive(Clone, Copy, Debug, PartialEq, Eq)]
struct FileCase {
    kind: u8,
    receiver: u64,
    rows: usize,
    file: usize,
    id: Hex<128>,
    moment: Hex<128>,
    ghost rows_within: { rows ≤ 8704 },
    ghost file_within: { file ≤ 66048 },
}

impl FromWords for FileCase {
    ghost says = { λ line case left. Says line case.kind case.receiver case.rows case.file case.id.bytes case.id.length case.moment.bytes case.moment.length left };

    fn from_words(words: &mut Words) -> Option<FileCase> {
        let kind = u8::try_from(words.number()?).ok()?;
        let receiver = words.number()?;
        let rows = words.number_up_to(ROWS_ROOM)?;
        let file = words.number_up_to(FILE_ROOM)?;
        let id = words.hex()?;
        let moment = words.hex()?;
        Some(FileCase {
            kind,
            receiver,
            rows,
            file,
            id,
            moment,
        })
    }
}

// The number of rows and bytes, the rows, and the file; what stands behind both is to be kept.
fn answer_file(rt: &impl Print, rows: &[i64], file: &[u8], count: usize, n: usize) -> io::Result<()>
    requires { (row_width * count ≤ length rows.now) × (n ≤ length file.now) }
{
    println!(rt; "file {count} {n}")?;
    let (filled, rest) = rows.split_at(ROW_WIDTH * count);
    let (written, behind) = file.split_at(n);
    answers::rows(rt, filled, ROW_WIDTH)?;
    rt.write_all(written)?;
    println!(rt)?;
    lent::kept(rt, rest)?;
    lent::kept(rt, behind)
}

fn answer(
    rt: &impl Print,
    said: Result<(usize, usize), Refused>,
    rows: &[i64],
    file: &[u8],
) -> io::Result<()>
    requires { IfOk said (λ answer. (row_width * answer.0 ≤ length rows.now) × (answer.1 ≤ length file.now)) }
{
    match said {
        Ok((count, n)) => answer_file(rt, rows, file, count, n),
        Err(refused) => {
            answers::refusal(rt, &refused, rows)?;
            lent::kept(rt, file)
        }
    }
}

// Asks for the file of a book with the first numbers of rows and the first bytes of file.
fn file_case(
    rt: &impl Print,
    case: &FileCase,
    book: &[u8],
    rows: &mut [i64; ROWS_ROOM],
    file: &mut [u8; FILE_ROOM],
) -> io::Result<()> {
    lent::prepare(rows);
    lent::prepare(file);
    let said = filing::file::file(
        book,
        case.kind,
        case.receiver,
        case.id.as_slice(),
        case.moment.as_slice(),
        &mut rows[..case.rows],
        &mut file[..case.file],
    );
    answer(rt, said, rows, file)
}

fn main(rt: HostRuntime) -> io::Result<()> {
    let mut rows = [0; ROWS_ROOM];
    let mut file = [0; FILE_ROOM];
    cases::input::each_case(&rt, TEXT_MOST, BOOK_ROOM, |case: FileCase, book| {
        file_case(&rt, &case, book, &mut rows, &mut file)
    })
}
