// Prints what `calendar` and `moments` compute, to be compared with calculations made elsewhere. First for each month of 2018 to
// 2099 its length, the weekday of its first, its last Sunday, the offset of its first, the next month, the offset of that
// month's first, and the day on which the clocks change, or 0. Then for each line of standard input how it is judged, as
// a moment (with its instant) and as a transaction ID.
#![tactic(auto)]

ghost use Rattle.std.specs.Prelude.{◌≤◌};

use calendar::Clock;
use calendar::dates::{Month, month_length};
use moments::ids;
use std::io;

// How much of the input is read.
const TEXT_MOST: u64 = 65536;

// The day of a calendar on which the clocks change, as it is printed: counted from 1, or 0.
fn changes_on(clock: Clock) -> u64 {
    match clock {
        Clock::Shorter(day) | Clock::Longer(day) => day.saturating_add(1),
        Clock::Same => 0,
    }
}

// The day of the month on which the clocks change, or 0, as a book finds it: in the month's own calendar and, where it has one, again among the lead days of the
// next month's, which reach back to the first.
#[tactic(auto, using(calendar::proofs::DatesLaws::month_days))]
fn change(of: Month, next: Month) -> u64 {
    if of.clock(0) == Clock::Same {
        return 0;
    }
    changes_on(next.clock(month_length(of.year, of.month)))
}

#[tactic(auto, using(calendar::proofs::DatesLaws::later_months))]
fn print_month(rt: &impl Print, month: Month) -> io::Result<()>
    requires { month.year ≤ 2099 }
{
    let (year, month_of_year) = month.next();
    let next = Month {
        year,
        month: month_of_year,
    };
    print!(rt;
        "{}-{:02} {} ",
        month.year,
        month.month,
        month_length(month.year, month.month)
    )?;
    print!(rt;
        "{} {} {} ",
        month.weekday(1),
        month.last_sunday(),
        month.offset_hours(1)
    )?;
    print!(rt; "{}-{:02} {} ", next.year, next.month, next.offset_hours(1))?;
    println!(rt; "{}", change(month, next))
}

fn print_months(rt: &impl Print) -> io::Result<()> {
    for year in 2018..2100 {
        for month in 1..13 {
            print_month(rt, Month { year, month })?;
        }
    }
    Ok(())
}

#[tactic(auto, using(moments::specs::MomentsLaws::judged_real))]
fn print_judged(rt: &impl Print, line: &[u8]) -> io::Result<()> {
    match moments::read_moment(line) {
        Some(m) => print!(rt; "moment {}", m.instant())?,
        None => print!(rt; "malformed")?,
    }
    if ids::transaction_id(line) {
        println!(rt; " id")
    } else {
        println!(rt; " malformed")
    }
}

// A line that no line feed ends is passed over.
fn print_line(rt: &impl Print, line: &[u8]) -> io::Result<()> {
    match line.strip_suffix(b"\n") {
        Some(line) => print_judged(rt, line),
        None => Ok(()),
    }
}

fn main(rt: HostRuntime) -> io::Result<()> {
    print_months(&rt)?;
    cases::input::each_line(&rt, TEXT_MOST, |line| print_line(&rt, line))
}
