// The program, but for its name: a line and a book from standard input, and on standard output the file that the line asks for, or why there is none.
#![tactic(auto)]

ghost use Rattle.std.specs.Prelude.{◌≡◌, length};
ghost use Rattle.program.specs.PrefixInner.{IsPrefixLen};
ghost use Rattle.outputs.specs.Output.{input_read};

use std::io;
use std::io::Read;

// Room for as much of the input as is read.
fn input_buffer() -> [u8; 65537]
    ensures { input_read ≡ length result }
{
    [0; 65537]
}

// A failure, on standard error; that this fails too can be said nowhere.
fn fail(rt: &impl Eprint, at: &str, error: io::Error) {
    let _ = eprintln!(rt; "toe: {at}: {error}");
}

// Reads standard input until the buffer is full, the input ends or a read fails, which is said on standard error; answers how many bytes.
// A loop over a place, since std's readers that fill a buffer don't say how much of it was filled before a failure.
fn read_input(rt: &(impl Input + Eprint), input: &mut [u8]) -> usize
    ensures { IsPrefixLen result input.new }
{
    let mut n = 0;
    while n < input.len() {
        match rt.reader().read(&mut input[n..]) {
            Ok(0) => break,
            Ok(more) => n += more,
            Err(error) => {
                fail(rt, "standard input", error);
                break;
            }
        }
    }
    n
}

// Writes to standard output; that not all was written is said on standard error.
fn print(rt: &(impl Print + Eprint), said: &[u8]) {
    if let Err(error) = rt.write_all(said) {
        fail(rt, "standard output", error);
    }
}

// Reads, answers and prints.
pub fn run(rt: &(impl Input + Print + Eprint)) {
    let mut input = input_buffer();
    let mut rows = [0i64; 10240];
    let mut out = [0u8; 65536];
    let n = read_input(rt, &mut input);
    let count = outputs::answer(&input[..n], &mut rows, &mut out);
    print(rt, &out[..count]);
}
