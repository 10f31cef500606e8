// Lengths of months, day numbers, weekdays, last Sundays, offsets, clock-change days.
ghost use Rattle.std.specs.Prelude.{◌≡◌, ◌≤◌};
ghost use Rattle.calendar.specs.Dates.{leap, month_length, MonthLengths, days_before_year, days_before_month, day_number, weekday, last_sunday, march_sunday, october_sunday, offset_hours, calendar_days, next_year, next_month};
ghost use Rattle.calendar.specs.DatesInner.{IsMonth};
ghost use Rattle.calendar.specs.Clocks.{clock_of};

use crate::Clock;

// Whether a year has a 29 February.
#[tactic(auto, unfolding(crate::specs::Dates::leap))]
pub fn is_leap(year: u64) -> bool
    ensures { result ≡ leap year }
{
    if year % 100 == 0 {
        year % 400 == 0
    } else {
        year % 4 == 0
    }
}

// The days of a month, 0 where there is no such month, and no Option: no day lies from 1 to 0, so one comparison judges a date.
#[tactic(auto, unfolding(crate::specs::Dates::month_length))]
pub fn month_length(year: u64, month: u64) -> u64
    ensures { result ≡ month_length year month }
{
    match month {
        2 => if is_leap(year) { 29 } else { 28 },
        1..=12 => 30 + (month + month / 8) % 2,
        _ => 0,
    }
}

// The months' lengths are the listed ones, in every year.
#[tactic(auto, using(crate::proofs::DatesLaws::listed_lengths))]
pub fn month_lengths_as_listed()
    ensures { MonthLengths }
{}

// The days from 1 January of year 1 to the year's own.
#[tactic(auto, using(crate::proofs::DatesLaws::closed_years))]
pub fn days_before_year(year: u64) -> u64
    requires { (1 ≤ year) × (year ≤ 9999) }
    ensures { result ≡ days_before_year year }
{
    let t = year - 1;
    365 * t + t / 4 + t / 400 - t / 100
}

// The days from 1 January to the first of the month.
#[tactic(auto, using(crate::proofs::DatesLaws::month_sums))]
pub fn days_before_month(year: u64, month: u64) -> u64
    requires { (1 ≤ month) × (month ≤ 12) }
    ensures { result ≡ days_before_month year month }
{
    let mut days = 0;
    for m in 1..month {
        days += month_length(year, m);
    }
    days
}

// A month of the years 1 to 9999. Numbers that may be no month stay two, as in `month_length`.
#[derive(Clone, Copy, Debug, PartialEq, Eq)]
pub struct Month {
    pub year: u64,
    pub month: u64,
    pub ghost is_month: { IsMonth year month },
}

// A day is a number, and what asks for one asks that it be 31 at most, the last of any month: so the sums have room.
impl Month {
    // The number of a day, 1 January of year 1 being day 1.
    #[tactic(auto, using(crate::proofs::DatesLaws::day_bounds), unfolding(crate::specs::Dates::day_number))]
    pub fn day_number(self, day: u64) -> u64
        requires { day ≤ 31 }
        ensures { result ≡ day_number self.year self.month day }
    {
        days_before_year(self.year) + days_before_month(self.year, self.month) + day
    }

    // 0 Sunday, 1 Monday, .., 6 Saturday.
    #[tactic(auto, unfolding(crate::specs::Dates::weekday))]
    pub fn weekday(self, day: u64) -> u64
        requires { day ≤ 31 }
        ensures { result ≡ weekday self.year self.month day }
    {
        self.day_number(day) % 7
    }

    // The day of its last Sunday.
    #[tactic(auto, using(crate::proofs::DatesLaws::month_days, crate::proofs::DatesLaws::last_sundays))]
    pub fn last_sunday(self) -> u64
        ensures { result ≡ last_sunday self.year self.month }
    {
        let last = month_length(self.year, self.month);
        last - self.weekday(last)
    }

    // The number of that day.
    #[tactic(auto, using(crate::proofs::DatesLaws::last_sundays))]
    pub fn sunday_number(self) -> u64
        ensures { result ≡ day_number self.year self.month (last_sunday self.year self.month) }
    {
        self.day_number(self.last_sunday())
    }

    // The numbers of the days on which the clocks of its year change: the last Sunday of March, and that of October.
    #[tactic(auto, unfolding(crate::specs::Dates::march_sunday))]
    pub fn march_sunday(self) -> u64
        ensures { result ≡ march_sunday self.year }
    {
        let year = self.year;
        let march = Month { year, month: 3 };
        march.sunday_number()
    }

    #[tactic(auto, unfolding(crate::specs::Dates::october_sunday))]
    pub fn october_sunday(self) -> u64
        ensures { result ≡ october_sunday self.year }
    {
        let year = self.year;
        let october = Month { year, month: 10 };
        october.sunday_number()
    }

    // The offset at a day's noon, in hours.
    #[tactic(auto, unfolding(crate::specs::Dates::offset_hours))]
    pub fn offset_hours(self, day: u64) -> u64
        requires { day ≤ 31 }
        ensures { result ≡ offset_hours self.year self.month day }
    {
        if (self.march_sunday()..self.october_sunday()).contains(&self.day_number(day)) {
            2
        } else {
            1
        }
    }

    // The offset on its first, in hours: the clocks change on the last Sundays of March and October, so summer time is that of April to October.
    #[tactic(auto, using(crate::proofs::DatesLaws::first_offsets))]
    pub fn first_offset(self) -> u64
        ensures { result ≡ offset_hours self.year self.month 1 }
    {
        if (4..=10).contains(&self.month) { 2 } else { 1 }
    }

    // The days of a calendar that starts `lead` days before the month.
    #[tactic(auto, using(crate::proofs::DatesLaws::month_days), unfolding(crate::specs::Dates::calendar_days))]
    pub fn calendar_days(self, lead: u64) -> u64
        requires { lead ≤ 255 }
        ensures { result ≡ calendar_days self.year self.month lead }
    {
        lead + month_length(self.year, self.month)
    }

    // On which day of that calendar the clocks change.
    #[tactic(auto, using(crate::proofs::DatesLaws::clock_bounds), unfolding(crate::specs::Clocks::clock_of))]
    pub fn clock(self, lead: u64) -> Clock
        requires { lead ≤ 255 }
        ensures { result ≡ clock_of self.year self.month lead }
    {
        let first = self.day_number(1);
        let days = first..first + self.calendar_days(lead);
        let march = self.march_sunday() + lead;
        if days.contains(&march) {
            return Clock::Shorter(march - first);
        }
        let october = self.october_sunday() + lead;
        if days.contains(&october) {
            return Clock::Longer(october - first);
        }
        Clock::Same
    }

    // The year and month of the next one: two numbers, since behind December 9999 lies no `Month`.
    #[tactic(auto, unfolding(crate::specs::Dates::next_year, crate::specs::Dates::next_month))]
    pub fn next(self) -> (u64, u64)
        ensures { (result.0 ≡ next_year self.year self.month) × (result.1 ≡ next_month self.month) }
    {
        if self.month == 12 {
            (self.year + 1, 1)
        } else {
            (self.year, self.month + 1)
        }
    }
}
