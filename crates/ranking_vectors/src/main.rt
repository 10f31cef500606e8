// Ranks the reference days of an engagement of the book of each line of standard input; the line's first word is the engagement's number, from 0. Prints how many
// days are ranked, and each with its sum in watts; or that there is no such engagement; or the book's refusal.
#![tactic(auto)]

use baseline::case::Case;
use cases::input::FromWords;
use cases::words::Words;
use settlement::days::MOST_POINTS;
use settlement::opened::OpenBook;
use std::io;

// The number of an engagement. `says` is left out: nothing is promised of it.
#[derive(Clone, Copy, Debug, PartialEq, Eq)]
struct Which {
    engagement: usize,
}

impl FromWords for Which {
    fn from_words(words: &mut Words) -> Option<Which> {
        let engagement = words.number()? as usize;
        Some(Which { engagement })
    }
}

// The day of a key, and its sum without the raises of so many readings.
fn answer_day(rt: &impl Print, key: u64, count: u8) -> io::Result<()> {
    let day = key % 64;
    let raised = (key / 64) as i64;
    let raises = (count as i64) * (wire::RAISE as i64);
    println!(rt; "{day} {}", raised - raises)
}

fn answer_days(rt: &impl Print, case: &Case) -> io::Result<()> {
    let ranking = case.rank_days();
    println!(rt; "ranked {}", ranking.found)?;
    for key in ranking.keys.iter().take(ranking.found) {
        answer_day(rt, *key, case.shown.e.count)?;
    }
    Ok(())
}

fn answer(rt: &impl Print, which: Which, book: &[u8]) -> io::Result<()> {
    if let Err(refused) = judging::judge::judge_book(book) {
        return println!(rt; "{refused}");
    }
    let mut engaged = [0u64; MOST_POINTS];
    let opened = OpenBook::of(book, &mut engaged);
    if opened.count() <= which.engagement {
        return println!(rt; "no engagement");
    }
    answer_days(rt, &opened.case_at(which.engagement))
}

fn main(rt: HostRuntime) -> io::Result<()> {
    cases::input::each_case(&rt, cases::TEXT_MOST, cases::BOOK_ROOM, |which, book| {
        answer(&rt, which, book)
    })
}
