// Moments in the form 2021-08-02T09:00:00.000+02:00: judged, written, as an instant; the period of a month.
#![tactic(auto)]

pub mod ids;

ghost use Rattle.std.specs.Prelude.{◌≡◌, true, ◌+◌, ◌≤◌, length};
ghost use Rattle.text.specs.WrittenInner.{Wrote};
ghost use Rattle.moments.specs.Moments.{date_bytes, time_bytes, tail_bytes, moment_bytes, real_date, real_time, real, value_at, parts, moment_of, period_start, period_end};
ghost use Rattle.moments.specs.MomentsInner.{millis, instant};

use calendar::dates::{Month, month_length};

// A date, a time of day and an offset in hours.
#[derive(Clone, Copy, Debug, PartialEq, Eq)]
pub struct Moment {
    pub year: u64,
    pub month: u64,
    pub day: u64,
    pub hour: u64,
    pub minute: u64,
    pub second: u64,
    pub milli: u64,
    pub offset: u64,
}

// Whether there is such a day, from 2018 to 2099.
#[tactic(auto, unfolding(crate::specs::Moments::real_date))]
pub fn real_date(year: u64, month: u64, day: u64) -> bool
    ensures { result ≡ real_date year month day }
{
    (2018..=2099).contains(&year) && (1..=month_length(year, month)).contains(&day)
}

// Whether there is such a time of day.
#[tactic(auto, unfolding(crate::specs::Moments::real_time))]
pub fn real_time(hour: u64, minute: u64, second: u64, milli: u64) -> bool
    ensures { result ≡ real_time hour minute second milli }
{
    hour <= 23 && minute <= 59 && second <= 59 && milli <= 999
}

// The number of n digits at `at`, 18 at most: a place, and no part, since the bytes may be too few.
// 0 where there is none, and no Option: `read_moment` writes again what was read, and compares.
#[tactic(auto, unfolding(crate::specs::Moments::value_at))]
fn value_at(s: &[u8], at: usize, n: usize) -> u64
    requires { n ≤ 18 }
    ensures { result ≡ value_at s.now at n }
{
    text::fixed_at(s, at, n).unwrap_or(0)
}

// What stands at the places of the form.
#[tactic(auto, unfolding(crate::specs::Moments::parts))]
fn parts_of(s: &[u8]) -> Moment
    ensures { result ≡ parts s.now }
{
    Moment {
        year: value_at(s, 0, 4),
        month: value_at(s, 5, 2),
        day: value_at(s, 8, 2),
        hour: value_at(s, 11, 2),
        minute: value_at(s, 14, 2),
        second: value_at(s, 17, 2),
        milli: value_at(s, 20, 3),
        offset: value_at(s, 24, 2),
    }
}

// Milliseconds from the start of day 0, of a day number and a time of that day.
fn millis(days: u64, hour: u64, minute: u64, second: u64, milli: u64) -> u64
    requires { (days ≤ 4000000) × (hour ≤ 23) × (minute ≤ 59) × (second ≤ 59) × (milli ≤ 999) }
    ensures { result ≡ millis days hour minute second milli }
{
    (((days * 24 + hour) * 60 + minute) * 60 + second) * 1000 + milli
}

// Its bytes are put one by one, and not by Display, whose contract doesn't say them.
impl Moment {
    // Whether it is one of 2018 to 2099 with either offset.
    #[tactic(auto, unfolding(crate::specs::Moments::real))]
    pub fn is_real(self) -> bool
        ensures { result ≡ real self }
    {
        real_date(self.year, self.month, self.day)
            && real_time(self.hour, self.minute, self.second, self.milli)
            && (1..=2).contains(&self.offset)
    }

    // 2021-08-02
    #[tactic(auto, using(text::proofs::WrittenLaws::writes), unfolding(crate::specs::Moments::date_bytes, text::specs::Ascii::bytes, text::specs::Decimal::fixed))]
    fn write_date(self, out: &mut [u8], at: usize) -> usize
        requires { at + 10 ≤ length out.old }
        ensures { Wrote out.old at (date_bytes self) out.new result }
    {
        let a = text::put_fixed(out, at, 4, self.year);
        let b = text::put(out, a, b"-");
        let c = text::put_fixed(out, b, 2, self.month);
        let d = text::put(out, c, b"-");
        text::put_fixed(out, d, 2, self.day)
    }

    // T09:00:00
    #[tactic(auto, using(text::proofs::WrittenLaws::writes), unfolding(crate::specs::Moments::time_bytes, text::specs::Ascii::bytes, text::specs::Decimal::fixed))]
    fn write_time(self, out: &mut [u8], at: usize) -> usize
        requires { at + 9 ≤ length out.old }
        ensures { Wrote out.old at (time_bytes self) out.new result }
    {
        let a = text::put(out, at, b"T");
        let b = text::put_fixed(out, a, 2, self.hour);
        let c = text::put(out, b, b":");
        let d = text::put_fixed(out, c, 2, self.minute);
        let e = text::put(out, d, b":");
        text::put_fixed(out, e, 2, self.second)
    }

    // .000+02:00
    #[tactic(auto, using(text::proofs::WrittenLaws::writes), unfolding(crate::specs::Moments::tail_bytes, text::specs::Ascii::bytes, text::specs::Decimal::fixed))]
    fn write_tail(self, out: &mut [u8], at: usize) -> usize
        requires { at + 10 ≤ length out.old }
        ensures { Wrote out.old at (tail_bytes self) out.new result }
    {
        let a = text::put(out, at, b".");
        let b = text::put_fixed(out, a, 3, self.milli);
        let c = text::put(out, b, b"+");
        let d = text::put_fixed(out, c, 2, self.offset);
        text::put(out, d, b":00")
    }

    // Writes its 29 bytes at `at`; answers the place behind them.
    #[tactic(auto, using(text::proofs::WrittenLaws::writes), unfolding(crate::specs::Moments::moment_bytes, crate::specs::Moments::date_bytes, crate::specs::Moments::time_bytes, crate::specs::Moments::tail_bytes, text::specs::Ascii::bytes, text::specs::Decimal::fixed))]
    pub fn write(self, out: &mut [u8], at: usize) -> usize
        requires { at + 29 ≤ length out.old }
        ensures { Wrote out.old at (moment_bytes self) out.new result }
    {
        let a = self.write_date(out, at);
        let b = self.write_time(out, a);
        self.write_tail(out, b)
    }

    // Milliseconds from the start of day 0, the offset taken off.
    #[tactic(auto, using(crate::proofs::InstantLaws::real_moments), unfolding(crate::specs::MomentsInner::instant, crate::specs::MomentsInner::clock))]
    pub fn instant(self) -> u64
        requires { real self ≡ true }
        ensures { result ≡ instant self }
    {
        let month = Month {
            year: self.year,
            month: self.month,
        };
        let days = month.day_number(self.day);
        let clock = millis(days, self.hour, self.minute, self.second, self.milli);
        clock - self.offset * 3600000
    }
}

// The moment that bytes are, or none.
#[tactic(auto, using(crate::specs::MomentsLaws::one_form), unfolding(crate::specs::Moments::moment_of))]
pub fn read_moment(s: &[u8]) -> Option<Moment>
    ensures { result ≡ moment_of s.now }
{
    if s.len() != 29 {
        return None;
    }
    let m = parts_of(s);
    if !m.is_real() {
        return None;
    }
    let mut form = [0u8; 29];
    m.write(&mut form, 0);
    text::matches(s, 0, &form).then_some(m)
}

// The first of a month.
#[tactic(auto, unfolding(crate::specs::Moments::period_start))]
pub fn period_start(month: Month) -> Moment
    ensures { result ≡ period_start month.year month.month }
{
    Moment {
        year: month.year,
        month: month.month,
        day: 1,
        hour: 0,
        minute: 0,
        second: 0,
        milli: 0,
        offset: month.first_offset(),
    }
}

// The first of the month after.
#[tactic(auto, using(calendar::proofs::DatesLaws::later_months), unfolding(crate::specs::Moments::period_end))]
pub fn period_end(month: Month) -> Moment
    requires { month.year ≤ 9998 }
    ensures { result ≡ period_end month.year month.month }
{
    let (year, month) = month.next();
    period_start(Month { year, month })
}
