// Gives the input of each line of standard input to the program's function, and prints what the program prints, with a line
// feed behind a file.
#![tactic(auto)]

use std::io;

// A file has no line feed at its end, a refusal has one.
fn print(rt: &impl Print, said: &[u8]) -> io::Result<()> {
    rt.write_all(said)?;
    if !said.is_empty() && !said.ends_with(b"\n") {
        println!(rt)?;
    }
    Ok(())
}

fn answer(rt: &impl Print, input: &[u8]) -> io::Result<()> {
    let mut rows = [0; 10240];
    let mut out = [0; 65536];
    let count = outputs::answer(input, &mut rows, &mut out);
    print(rt, &out[..count])
}

fn main(rt: HostRuntime) -> io::Result<()> {
    cases::input::each_case(&rt, cases::TEXT_MOST, cases::BOOK_ROOM, |(), input| {
        answer(&rt, input)
    })
}
