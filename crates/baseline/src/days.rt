// Reference days: which are eligible, and their sums over the engagement's quarter-hours.
ghost use Rattle.std.specs.Prelude.{◌≡◌, false, not, ◌&&◌, ◌+◌, ◌*◌, ◌≤◌, ◌<◌, length};
ghost use Rattle.quarters.specs.Quarters.{days_of, is_clock_change, in_calendar};
ghost use Rattle.book.specs.Book.{Book};
ghost use Rattle.baseline.specs.TallyInner.{Tallied, AtMost};
ghost use Rattle.baseline.specs.ShownInner.{alike, Refers, window_in};
ghost use Rattle.baseline.specs.CaseInner.{CaseOf};
ghost use Rattle.baseline.specs.RunsInner.{standing, turn, together};
ghost use Rattle.volumes.specs.Quarters.{start, reference_quarter, reference, touches};
ghost use Rattle.volumes.specs.Baseline.{windowed, clear};
ghost use Rattle.quarters.specs.QuartersInner.{usual_day, longest_day};

use crate::case::Case;
use crate::shown::Shown;
use crate::tally::tally_run;
use book::Method;
use quarters::Calendar;

// The 12 readings from 24 before quarter-hour q; those before the calendar are missing.
#[tactic(auto, using(crate::proofs::CaseLaws::windows))]
pub fn window(readings: &[u8], q: usize) -> Option<u64>
    requires { 4 * q ≤ length readings.now }
    ensures { Tallied (window_in readings.now q) 12 result }
{
    if q < 24 {
        return None;
    }
    tally_run(readings, q - 24, 12)
}

// The window from 24 before quarter-hour `place` of a day touches no day on which the clocks change: they don't on the day itself, so only the one before it can be touched.
#[tactic(auto, using(crate::proofs::CaseLaws::touched_windows), unfolding(volumes::proofs::WindowsLaws::changes_before))]
fn window_clear(c: Calendar, day: u64, place: usize) -> bool
    requires { (is_clock_change c day ≡ false) × (day < days_of c) × (place ≤ usual_day) }
    ensures { result ≡ not (touches c (in_calendar c day place)) }
{
    if 24 <= place {
        return true;
    }
    if day == 0 {
        return true;
    }
    !c.is_clock_change(day - 1)
}

// From which quarter-hour of a day of n on another number is looked at.
fn turn_of(n: u64) -> usize
    ensures { result ≡ turn n }
{
    match n {
        92 => 8,
        100 => 12,
        _ => 0,
    }
}

impl Shown {
    // The quarter-hour of a reference day that stands for quarter-hour k of the engagement: on a day of 92 or 100, from the hour of the change on, another than its own number.
    #[tactic(auto, unfolding(volumes::specs::Quarters::reference_quarter, volumes::specs::Quarters::looks_at))]
    pub fn reference_quarter(&self, k: usize) -> usize
        requires { k ≤ longest_day }
        ensures is { result ≡ reference_quarter self.now.c self.now.e.day (self.now.e.first + k) }
        ensures few { result < 360 }
    {
        let q = (self.e.first as usize) + k;
        match self.c.quarters(self.e.day as u64) {
            92 if 8 <= q => q + 4,
            100 if 12 <= q => q - 4,
            _ => q,
        }
    }

    // In the calendar.
    #[tactic(auto, using(quarters::proofs::QuartersLaws::few_quarters), unfolding(volumes::specs::Quarters::reference))]
    fn reference_at(&self, day: u64, k: usize) -> usize
        requires { (day < 64) × (k ≤ longest_day) }
        ensures { result ≡ reference self.now.c self.now.e day k }
    {
        (self.c.day_start(day) as usize) + self.reference_quarter(k)
    }

    // How many of the engagement's quarter-hours, from its first on, stand in one run on a reference day.
    #[tactic(auto, unfolding(crate::specs::RunsInner::together))]
    fn together(&self) -> usize
        ensures { result ≡ together self.now.c self.now.e }
    {
        let turn = turn_of(self.c.quarters(self.e.day as u64));
        let first = self.e.first as usize;
        let count = self.e.count as usize;
        if (first < turn) & (turn < first + count) {
            return turn - first;
        }
        count
    }
}

// A day before the engagement's is a number with that bound: the scan has it from a range, and a type for it, which would hold the case once more, is no plainer.
impl<'a> Case<'a> {
    // The quarter-hour of the calendar with which the engagement begins.
    #[tactic(auto, using(crate::proofs::CaseLaws::placed), unfolding(volumes::specs::Quarters::start))]
    pub fn start(&self) -> usize
        ensures { result ≡ start self.now.shown.c self.now.shown.e }
    {
        let e = self.shown.e;
        self.shown.c.in_calendar(e.day, e.first)
    }

    // Method 2 looks at the window of what stands for the engagement's first quarter-hour on a reference day too. A match on a value, as in `method_whole`.
    #[tactic(auto, using(crate::proofs::CaseLaws::placed, crate::proofs::CaseLaws::wholes), unfolding(volumes::specs::Baseline::windowed, volumes::specs::Baseline::clear, volumes::specs::Quarters::reference))]
    fn window_good(&self, day: u64) -> bool
        requires { (is_clock_change self.now.shown.c day ≡ false) × (day < self.now.shown.e.day) }
        ensures { result ≡ (windowed self.now.shown.point.method (window_in self.now.readings.now (reference self.now.shown.c self.now.shown.e day 0)) && clear self.now.shown.point.method self.now.shown.c (reference self.now.shown.c self.now.shown.e day 0)) }
    {
        match self.shown.point.method {
            Method::LastQuarter | Method::HighXOfY => true,
            Method::Adjusted => {
                let place = self.shown.reference_quarter(0);
                let q = self.shown.reference_at(day, 0);
                window(self.readings, q).is_some() & window_clear(self.shown.c, day, place)
            }
        }
    }

    // The sum of what stands on a reference day for the engagement's quarter-hours: one run of readings, or two.
    #[tactic(auto, using(crate::proofs::CaseLaws::placed, crate::proofs::CaseLaws::two_rooms, crate::proofs::JudgedLaws::runs_judged))]
    fn standing_sum(&self, day: u64) -> Option<u64>
        requires { day < self.now.shown.e.day }
        ensures { Tallied (standing self.now.readings.now self.now.shown.c self.now.shown.e day) self.now.shown.e.count result }
    {
        let n = self.shown.together();
        let count = self.shown.e.count as usize;
        let first = tally_run(self.readings, self.shown.reference_at(day, 0), n)?;
        if n == count {
            return Some(first);
        }
        let turned = self.shown.reference_at(day, n);
        let second = tally_run(self.readings, turned, count - n)?;
        Some(first + second)
    }

    // The day's category is A's, the day isn't closed, and the clocks don't change on it.
    #[tactic(auto, using(crate::proofs::CaseLaws::placed))]
    fn alike(&self, day: usize) -> bool
        requires { day < self.now.shown.e.day }
        ensures { result ≡ alike self.now.calendar.now self.now.shown day }
    {
        let own = self.shown.e.day as usize;
        (self.calendar[day] == self.calendar[own])
            & (!book::register::excludes(self.shown.closed, day as u32)
                & !self.shown.c.is_clock_change(day as u64))
    }

    // The sum of a day before the engagement's, where it is eligible.
    #[tactic(auto, using(crate::proofs::CaseLaws::usual_days, crate::proofs::JudgedLaws::days_judged))]
    pub fn reference_day(&self, day: usize) -> Option<u64>
        requires { day < self.now.shown.e.day }
        ensures small { AtMost (4294967295 * self.now.shown.e.count) result }
        ensures refers { (b : Book) → CaseOf self.now b → Refers b self.now.shown.e day result }
    {
        if !self.alike(day) {
            return None;
        }
        let sum = self.standing_sum(day as u64)?;
        if !self.window_good(day as u64) {
            return None;
        }
        Some(sum)
    }
}
