// The reader's cases.
ghost use Rattle.std.specs.Prelude.{◌≤◌, length};

use crate::parts::{append, between, part, split_rows};
use crate::{FILE_ROOM, ROWS_ROOM};
use cases::hex::hex_word;
use cases::words::Words;
use cases::{answers, lent};
use kinds::Kind;
use message::FileFacts;
use std::io;

// A kind's number as the write call takes it.
pub fn kind_byte(kind: Kind) -> u8 {
    u64::from(kind) as u8
}

// Whether a file is written again, byte by byte, from what was read of it.
pub fn written_back(facts: FileFacts, file: &[u8], rows: &[u64]) -> bool {
    let mut again = [0; FILE_ROOM];
    let answer = writer::writing::write(
        kind_byte(facts.kind),
        facts.receiver,
        facts.year,
        facts.month,
        rows,
        part(file, facts.id, facts.id_length),
        part(file, facts.moment, 29),
        &mut again,
    );
    match answer {
        Ok(n) => again.get(..n) == Some(file),
        Err(_) => false,
    }
}

// `file KIND RECEIVER YEAR MONTH ID-START ID-LENGTH MOMENT-START MOMENT-LENGTH ROWS`
fn print_facts(rt: &impl Print, facts: FileFacts) -> io::Result<()> {
    let kind = u64::from(facts.kind);
    print!(rt;
        "file {kind} {} {} {}",
        facts.receiver, facts.year, facts.month
    )?;
    println!(rt;
        " {} {} {} 29 {}",
        facts.id, facts.id_length, facts.moment, facts.rows
    )
}

// What was read, with the rows; the numbers behind them are to be kept.
fn answer_file(rt: &impl Print, facts: FileFacts, file: &[u8], numbers: &[u64]) -> io::Result<()> {
    print_facts(rt, facts)?;
    let (rows, rest) = split_rows(numbers, facts.rows);
    answers::rows(rt, rows, 6)?;
    lent::kept(rt, rest)?;
    if !written_back(facts, file, rows) {
        println!(rt; "not written back")?;
    }
    Ok(())
}

// Reads a file into the first n numbers of rows; those behind them are to be kept.
fn read_file(rt: &impl Print, file: &[u8], rows: &mut [u64], n: usize) -> io::Result<()>
    requires { n ≤ length rows.old }
{
    lent::prepare(rows);
    match reader::read(file, &mut rows[..n]) {
        Ok(facts) => answer_file(rt, facts, file, rows),
        Err(refused) => answers::refusal(rt, &refused, rows),
    }
}

// A word that is missing or no number is 0, here and in the writer's cases, as the stored cases have it.
// Puts the base with the edits that the words say into out; answers how many bytes. A turn takes as many words as an edit has.
fn edited(mut words: Words, base: &[u8], out: &mut [u8]) -> usize
    ensures { result ≤ length out.old }
{
    let mut place = 0;
    let mut n = 0;
    while !words.rest.is_empty() {
        let start = words.number().unwrap_or(0) as usize;
        let end = words.number().unwrap_or(0) as usize;
        n = append(out, n, between(base, place, start));
        n += hex_word(words.word(), &mut out[n..]).unwrap_or(0);
        place = end;
    }
    append(out, n, between(base, place, base.len()))
}

// `ROWS START END HEX ..`: how many numbers are lent, and the edits of the base.
pub fn read_case(rt: &impl Print, mut words: Words, base: &[u8]) -> io::Result<()> {
    let mut file = [0; FILE_ROOM];
    let mut rows = [0; ROWS_ROOM];
    let lent = (words.number().unwrap_or(0) as usize).min(ROWS_ROOM);
    let n = edited(words, base, &mut file);
    read_file(rt, &file[..n], &mut rows, lent)
}
