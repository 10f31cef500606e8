// The lines of the cases, from standard input.
ghost use Rattle.std.specs.Prelude.{◌≡◌, List, ℕ, ⊤, IfSome};

use crate::answers::no_case;
use crate::words::Words;
use std::io;
use std::io::Read;

// The first bytes of the input, `most` or fewer; what stands behind them is left unread.
fn read_text<R: Input + Alloc>(rt: &R, most: u64) -> io::Result<Vec<u8, R::A>> {
    let mut text = Vec::new(rt.alloc());
    rt.reader().take(most).read_to_end(&mut text)?;
    Ok(text)
}

// Gives each line of these bytes to what runs a case, with the line feed that ends it; the last line may have none.
pub fn each_line<R: Input + Alloc, F: FnMut(&[u8]) -> io::Result<()>>(
    rt: &R,
    most: u64,
    mut run: F,
) -> io::Result<()>
    requires { F.IsAlwaysCallable run }
{
    let text = read_text(rt, most)?;
    for line in text.split_inclusive(|byte| *byte == b'\n') {
        run(line)?;
    }
    Ok(())
}

// What the words of a line say before a book, which are taken off.
pub trait FromWords: Copy {
    // A line says a case, and what is left of it. An impl that leaves this out promises nothing of its cases.
    ghost says: { List ℕ → Self → List ℕ → Type 0 } = { λ _ _ _. ⊤ };

    fn from_words(words: &mut Words) -> Option<Self>
        ensures { IfSome result (λ case. says words.old.rest.now case words.new.rest.now) };
}

// A line that is a book alone.
impl FromWords for () {
    ghost says = { λ line case left. left ≡ line };

    fn from_words(_words: &mut Words) -> Option<()> {
        Some(())
    }
}

// What a line says before its book, and the book, which is put into the room.
fn read_case<'a, C: FromWords>(line: &[u8], room: &'a mut [u8]) -> Option<(C, &'a [u8])> {
    let mut words = Words::new(line);
    let case = C::from_words(&mut words)?;
    let n = words.load(room)?;
    Some((case, &room[..n]))
}

// Gives what each line of the first `most` bytes says, and its book, to what runs a case; a line that doesn't say them, or whose book has no room, is no case.
// Not by `each_line`: the closure that it would take needs two clauses, and a proof by hand that it can be called again (docs/LOOK-BACK.md, "Brought back").
pub fn each_case<R: Input + Print + Alloc, C: FromWords, F: FnMut(C, &[u8]) -> io::Result<()>>(
    rt: &R,
    most: u64,
    room: usize,
    mut run: F,
) -> io::Result<()>
    requires { F.IsAlwaysCallable run }
{
    let mut room = vec![in rt.alloc(); 0; room]?;
    let text = read_text(rt, most)?;
    for line in text.split_inclusive(|byte| *byte == b'\n') {
        match read_case(line.strip_suffix(b"\n").unwrap_or(line), &mut room) {
            Some((case, book)) => run(case, book)?,
            None => no_case(rt)?,
        }
    }
    Ok(())
}
