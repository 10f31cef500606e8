// Runs the stored cases of the reader and of the writer of a file, a line each, and prints their answers. A line that starts
// with `<` is the base file of the reader's cases after it. What a call may not change is marked before it, and `changed` is
// printed if it did; a file that was written must be read back, and one that was read must be written back.
#![tactic(auto)]

mod changes;
mod parts;
mod reading;
mod writing;

use cases::words::Words;
use std::io;

// How much of the input is read.
const TEXT_MOST: u64 = 1000000;

// Room for a file, and for its rows.
const FILE_ROOM: usize = 20000;

const ROWS_ROOM: usize = 1024;

// A case's first letter says what it is: `read`, `write`, `part` of what is written, or `changes` of the base.
fn run_case(rt: &impl Print, line: &[u8], base: &[u8]) -> io::Result<()> {
    let mut words = Words::new(line);
    match words.word().first() {
        Some(b'r') => reading::read_case(rt, words, base),
        Some(b'w') => writing::write_case(rt, words, 0, 65536),
        Some(b'p') => writing::part_case(rt, words),
        Some(b'c') => changes::change_case(rt, base),
        _ => Ok(()),
    }
}

// A base takes the place of the one before it.
fn run_line(rt: &impl Print, line: &[u8], base: &mut Vec<u8>) -> io::Result<()> {
    if line.starts_with(b"<") {
        base.clear();
        base.extend_from_slice(line)?;
        return Ok(());
    }
    run_case(rt, line, base)
}

fn main(rt: HostRuntime) -> io::Result<()> {
    let mut base = Vec::new(rt.alloc());
    cases::input::each_line(&rt, TEXT_MOST, |line| {
        run_line(&rt, line.strip_suffix(b"\n").unwrap_or(line), &mut base)
    })
}
