// Quarter-hours: how many a day, a month and a calendar have, and where one of them lies. Nothing else knows on which day there are how many.
#![tactic(auto)]

ghost use Rattle.std.specs.Prelude.{◌≡◌, ◌≤◌, ◌<◌};
ghost use Rattle.quarters.specs.Quarters.{days_of, quarters, is_clock_change, day_start, quarters_of, in_calendar, month_quarters, quarters_in_month, origin_of};
ghost use Rattle.quarters.specs.QuartersInner.{Ranged, cell_of};

use calendar::Clock;
use calendar::dates::{Month, month_length};

// The month, the lead days before it, and on which of these days the clocks change.
#[derive(Clone, Copy, Debug, PartialEq, Eq)]
pub struct Calendar {
    pub year: u64,
    pub month: u64,
    pub lead: u64,
    pub clock: Clock,
}

// A calendar that a header may have: its numbers are in their ranges, and its clock is that of its month and lead days.
#[derive(Clone, Copy, Debug, PartialEq, Eq)]
pub struct RangedCalendar {
    pub calendar: Calendar,
    pub ghost ranged: { Ranged calendar },
}

// No day, and no month, has more quarter-hours; no book has more settlement rows.
pub const LONGEST_DAY: usize = 100;

pub const LONGEST_MONTH: usize = 2980;

pub const MOST_ROWS: usize = 512 * LONGEST_DAY;

impl Calendar {
    // The quarter-hours of a day, and where it starts among those of the calendar.
    #[tactic(auto, unfolding(crate::specs::Quarters::quarters, crate::specs::Quarters::quarters_by))]
    pub fn quarters(self, day: u64) -> u64
        ensures { result ≡ quarters self day }
    {
        match self.clock {
            Clock::Shorter(at) if at == day => 92,
            Clock::Longer(at) if at == day => 100,
            _ => 96,
        }
    }

    #[tactic(auto, using(crate::proofs::QuartersLaws::closed_days), unfolding(crate::proofs::QuartersLaws::closed_by))]
    pub fn day_start(self, day: u64) -> u64
        requires { day ≤ 64 }
        ensures { result ≡ day_start self day }
    {
        let start = 96 * day;
        match self.clock {
            Clock::Shorter(at) if at < day => start - 4,
            Clock::Longer(at) if at < day => start + 4,
            _ => start,
        }
    }

    // The clocks change on the day.
    #[tactic(auto, unfolding(crate::specs::Quarters::is_clock_change))]
    pub fn is_clock_change(self, day: u64) -> bool
        ensures { result ≡ is_clock_change self day }
    {
        self.quarters(day) != 96
    }

    // Quarter-hour q of a day among those of the calendar.
    #[tactic(auto, using(crate::proofs::QuartersLaws::few_quarters))]
    pub fn in_calendar(self, day: u8, q: u8) -> usize
        requires { day < 64 }
        ensures { result ≡ in_calendar self day q }
    {
        (self.day_start(day as u64) + (q as u64)) as usize
    }

    // Its cell among those of the month.
    #[tactic(auto, using(crate::proofs::QuartersLaws::day_order), unfolding(crate::specs::Quarters::position))]
    pub fn cell_of(self, day: u8, q: u8) -> usize
        requires { (day < 64) × (self.lead ≤ day) }
        ensures { result ≡ cell_of self day q }
    {
        self.in_calendar(day, q) - (self.day_start(self.lead) as usize)
    }
}

impl RangedCalendar {
    // The days of the calendar, and its quarter-hours.
    pub fn days(self) -> u64
        ensures { result ≡ days_of self.calendar }
    {
        let c = self.calendar;
        let month = Month {
            year: c.year,
            month: c.month,
        };
        month.calendar_days(c.lead)
    }

    #[tactic(auto, using(crate::proofs::QuartersLaws::few_days))]
    pub fn quarters(self) -> u64
        ensures { result ≡ quarters_of self.calendar }
    {
        self.calendar.day_start(self.days())
    }

    // The quarter-hours of its month: as many as it has cells, and its last position.
    #[tactic(auto, using(crate::proofs::QuartersLaws::day_order, crate::proofs::QuartersLaws::few_days), unfolding(crate::specs::Quarters::month_quarters))]
    pub fn month_quarters(self) -> usize
        ensures { result ≡ month_quarters self.calendar }
    {
        let c = self.calendar;
        (self.quarters() - c.day_start(c.lead)) as usize
    }

    // Where the readings of a point start.
    #[tactic(auto, using(crate::proofs::QuartersLaws::few_origins))]
    pub fn origin_of(self, point: u16) -> usize
        requires { point < 256 }
        ensures { result ≡ origin_of self.calendar point }
    {
        (self.quarters() as usize) * (point as usize)
    }
}

// The quarter-hours of any month.
#[tactic(auto, using(crate::proofs::QuartersLaws::most_days), unfolding(crate::specs::Quarters::quarters_in_month))]
pub fn quarters_in_month(year: u64, month: u64) -> u64
    ensures { result ≡ quarters_in_month year month }
{
    match month {
        3 => 2972,
        10 => 2980,
        _ => 96 * month_length(year, month),
    }
}
