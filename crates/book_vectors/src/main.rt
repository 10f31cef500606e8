// Judges the book of each line of standard input, and prints `passed` or the refusal.
#![tactic(auto)]

use refusals::Refused;
use std::io;

fn answer(rt: &impl Print, judged: Result<(), Refused>) -> io::Result<()> {
    match judged {
        Ok(()) => println!(rt; "passed"),
        Err(refused) => println!(rt; "{refused}"),
    }
}

fn main(rt: HostRuntime) -> io::Result<()> {
    cases::input::each_case(&rt, cases::TEXT_MOST, cases::BOOK_ROOM, |(), book| {
        answer(&rt, judging::judge::judge_book(book))
    })
}
