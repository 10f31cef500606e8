// Asks for a party's sheet of the book of each line of standard input, with as many numbers lent as the line says. Prints
// the sums that aren't 0 or the refusal, and `changed` if a number that is no part of the answer is not as it was.
#![tactic(auto)]

ghost use Rattle.std.specs.Prelude.{◌≡◌, ◌≤◌, length, Some, IfOk};
ghost use Rattle.cases.specs.WordsInner.{word_of, rest_of, number_of};

use cases::input::FromWords;
use cases::words::Words;
use cases::{answers, lent};
use refusals::Refused;
use std::io;

// Room for the sums of each case.
const ROOM: usize = 3008;

// Whose sheet of a book is asked for, and how many numbers are lent.
#[derive(Clone, Copy, Debug, PartialEq, Eq)]
struct SheetCase {
    party: u16,
    lent: usize,
    ghost within: { lent ≤ 3008 },
}

impl FromWords for SheetCase {
    ghost says = { λ line case left. (number_of (word_of line) ≡ Some case.party) × (number_of (word_of (rest_of line)) ≡ Some case.lent)
        × (left ≡ rest_of (rest_of line)) };

    fn from_words(words: &mut Words) -> Option<SheetCase> {
        let party = u16::try_from(words.number()?).ok()?;
        let lent = words.number_up_to(ROOM)?;
        Some(SheetCase { party, lent })
    }
}

// The number of sums, and the sums that aren't 0, each behind its place; the numbers behind the sums are to be kept.
fn answer_sums(rt: &impl Print, sums: &[i64], count: usize) -> io::Result<()>
    requires { count ≤ length sums.now }
{
    println!(rt; "sheet {count}")?;
    let (filled, rest) = sums.split_at(count);
    for (place, sum) in filled.iter().enumerate().filter(|(_, sum)| **sum != 0) {
        println!(rt; "{place} {sum}")?;
    }
    lent::kept(rt, rest)
}

fn answer(rt: &impl Print, said: Result<usize, Refused>, sums: &[i64]) -> io::Result<()>
    requires { IfOk said (λ count. count ≤ length sums.now) }
{
    match said {
        Ok(count) => answer_sums(rt, sums, count),
        Err(refused) => answers::refusal(rt, &refused, sums),
    }
}

// Asks for the sheet with the first numbers of sums. `settle_case` of `settle_vectors` has this shape; what they share, room and answers, is `cases`'.
fn sheet_case(
    rt: &impl Print,
    case: SheetCase,
    book: &[u8],
    sums: &mut [i64; ROOM],
) -> io::Result<()> {
    lent::prepare(sums);
    let said = filing::sheet::sheet(book, case.party, &mut sums[..case.lent]);
    answer(rt, said, sums)
}

// Beside what `each_case` does, only the room and the call are left.
fn main(rt: HostRuntime) -> io::Result<()> {
    let mut sums = [0; ROOM];
    cases::input::each_case(&rt, cases::TEXT_MOST, cases::BOOK_ROOM, |case, book| {
        sheet_case(&rt, case, book, &mut sums)
    })
}
