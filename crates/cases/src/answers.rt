// Answers on standard output.
use crate::lent::kept;
use std::fmt::Display;
use std::io;

// A number alone.
pub fn number(rt: &impl Print, n: u64) -> io::Result<()> {
    print!(rt; "{n}")
}

// The numbers of a row, parted by spaces.
fn row<T: Display>(rt: &impl Print, numbers: &[T]) -> io::Result<()> {
    let mut gap = "";
    for n in numbers {
        print!(rt; "{gap}{n}")?;
        gap = " ";
    }
    println!(rt)
}

// Rows of so many numbers, at least one, each on a line.
pub fn rows<T: Display>(rt: &impl Print, numbers: &[T], width: usize) -> io::Result<()> {
    for numbers in numbers.chunks(width.max(1)) {
        row(rt, numbers)?;
    }
    Ok(())
}

// What is said of a line that is no case.
pub fn no_case(rt: &impl Print) -> io::Result<()> {
    println!(rt; "no case")
}

// A refusal, behind which what was lent is to be kept.
pub fn refusal<T: Copy + PartialEq + From<u8>>(
    rt: &impl Print,
    refused: &impl Display,
    lent: &[T],
) -> io::Result<()> {
    println!(rt; "{refused}")?;
    kept(rt, lent)
}
