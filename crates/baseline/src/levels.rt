// Levels: raised baselines, in grains. A raised reading has one raise more than the reading; a level has three more than the baseline, so that no
// addend makes it less than 0.
ghost use Rattle.std.specs.Prelude.{◌≡◌, ◌+◌, ◌*◌, ◌≤◌, length};
ghost use Rattle.grains.specs.Grains.{grains};
ghost use Rattle.baseline.specs.ShownInner.{before_in, window_in};
ghost use Rattle.baseline.specs.RunsInner.{start_runs, Lie};
ghost use Rattle.baseline.specs.LevelsInner.{Means, Adds, Lasts};
ghost use Rattle.baseline.specs.FillsInner.{Adding, Added};
ghost use Rattle.volumes.specs.Quarters.{start};
ghost use Rattle.wire.specs.ReadingsInner.{raise};

use crate::case::Case;
use crate::taken::Taken;
use book::Method;
use grains::Grains;

// So many raises, in grains.
pub fn raises(n: u8) -> u64
    ensures { result ≡ grains (n * raise) }
{
    (n as u64) * Grains::from_watts(wire::RAISE).count
}

impl<'a> Case<'a> {
    // The level of method 0: the last reading known when the notice is given, `notice` + 1 quarter-hours before the engagement.
    #[tactic(auto, using(crate::proofs::CaseLaws::placed))]
    pub fn last_level(&self) -> u64
        requires { self.now.shown.e.notice + 1 ≤ start self.now.shown.c self.now.shown.e }
        ensures { Lasts (before_in self.now.readings.now (start self.now.shown.c self.now.shown.e) (self.now.shown.e.notice + 1)) result }
    {
        let n = self.shown.e.notice as usize + 1;
        let raised = wire::raised_at(self.readings, self.start() - n).unwrap_or(0);
        Grains::from_watts(raised).count + raises(2)
    }
}

impl<'a> Taken<'a> {
    // The mean of the days' quarter-hour `place`.
    pub fn mean(&self, place: usize) -> u64
        requires { Lie self.now.readings.now self.now.starts.now place 0 1 }
        ensures { Means (start_runs self.now.readings.now place 0 1 self.now.starts.now) (length self.now.starts.now) result }
    {
        self.tally(place, 0, 1).1 * self.share
    }

    // The addend of method 2 and two raises: the mean of the window before quarter-hour q less that of the days' windows, which are from 24 before their quarter-hour `place`.
    fn window_addend(&self, place: usize, q: usize) -> u64
        requires { Lie self.now.readings.now self.now.starts.now place 24 12 × (4 * q ≤ length self.now.readings.now) }
        ensures { Adds (window_in self.now.readings.now q) (start_runs self.now.readings.now place 24 12 self.now.starts.now) (length self.now.starts.now) result }
    {
        let own = crate::days::window(self.readings, q).unwrap_or(0);
        let mean = Grains::mean(own, 12).count;
        let days = self.sum(place, 24, 12).unwrap_or(0);
        let less = Grains::mean(days, 12 * (self.starts.len() as u64)).count;
        mean + raises(2) - less
    }

    // What methods 1 and 2 add to a mean, and two raises. A match on a value, as in `method_whole`.
    pub fn addend(&self, method: Method, place: usize, q: usize) -> u64
        requires { Adding method self.now.readings.now self.now.starts.now place × (4 * q ≤ length self.now.readings.now) }
        ensures { Added method (window_in self.now.readings.now q) (start_runs self.now.readings.now place 24 12 self.now.starts.now) (length self.now.starts.now) result }
    {
        match method {
            Method::LastQuarter | Method::HighXOfY => raises(2),
            Method::Adjusted => self.window_addend(place, q),
        }
    }
}
