// Settles the book of each line of standard input, with as many numbers lent as the line says. Prints the rows or
// the refusal, and `changed` if a number that is no part of the answer is not as it was.
#![tactic(auto)]

ghost use Rattle.std.specs.Prelude.{◌≡◌, ◌*◌, ◌≤◌, length, Some};
ghost use Rattle.cases.specs.WordsInner.{word_of, rest_of, number_of};
ghost use Rattle.volumes.specs.Settlement.{row_width};
ghost use Rattle.settle_vectors.specs.FitsInner.{RowsFit};

use cases::input::FromWords;
use cases::words::Words;
use cases::{answers, lent};
use settlement::rows::ROW_WIDTH;
use settlement::settle;
use settlement::settle::Settled;
use std::io;

// Room for the rows of each case.
const ROOM: usize = 2560;

// How many numbers are lent for a book.
#[derive(Clone, Copy, Debug, PartialEq, Eq)]
struct SettleCase {
    lent: usize,
    ghost within: { lent ≤ 2560 },
}

impl FromWords for SettleCase {
    ghost says = { λ line case left. (number_of (word_of line) ≡ Some case.lent) × (left ≡ rest_of line) };

    fn from_words(words: &mut Words) -> Option<SettleCase> {
        let lent = words.number_up_to(ROOM)?;
        Some(SettleCase { lent })
    }
}

// The number of rows, and the rows; the numbers behind them are to be kept.
fn answer_rows(rt: &impl Print, rows: &[i64], count: usize) -> io::Result<()>
    requires { row_width * count ≤ length rows.now }
{
    println!(rt; "rows {count}")?;
    let (filled, rest) = rows.split_at(ROW_WIDTH * count);
    answers::rows(rt, filled, ROW_WIDTH)?;
    lent::kept(rt, rest)
}

fn answer(rt: &impl Print, settled: Settled, rows: &[i64]) -> io::Result<()>
    requires { RowsFit settled (length rows.now) }
{
    match settled {
        Settled::Rows(count) => answer_rows(rt, rows, count),
        Settled::Refused(number, item) => {
            println!(rt; "refused {number} {item}")?;
            lent::kept(rt, rows)
        }
    }
}

// Settles a book with the first numbers of rows. `sheet_case` of `sheet_vectors` has this shape; what they share, room and answers, is `cases`'.
fn settle_case(
    rt: &impl Print,
    case: SettleCase,
    book: &[u8],
    rows: &mut [i64; ROOM],
) -> io::Result<()> {
    lent::prepare(rows);
    let settled = settle::settle(book, &mut rows[..case.lent]);
    answer(rt, settled, rows)
}

// Beside what `each_case` does, only the room and the call are left.
fn main(rt: HostRuntime) -> io::Result<()> {
    let mut rows = [0; ROOM];
    cases::input::each_case(&rt, cases::TEXT_MOST, cases::BOOK_ROOM, |case, book| {
        settle_case(&rt, case, book, &mut rows)
    })
}
