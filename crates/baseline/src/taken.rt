// The days that are taken: where they start, and sums over them.
ghost use Rattle.std.specs.Prelude.{◌≡◌, ◌*◌, ◌/◌, ◌≤◌, length};
ghost use Rattle.grains.specs.Grains.{per_watt};
ghost use Rattle.baseline.specs.RunsInner.{starts_in};

use crate::tally::tally_run;
use quarters::Calendar;

// The days' keys become where these days start in the calendar.
pub fn start_days(c: Calendar, keys: &mut [u64])
    ensures { keys.new ≡ starts_in c keys.old }
{
    for key in keys {
        *key = c.day_start(*key % 64);
    }
}

// The point's readings, where the X days that are taken start among them, and what a watt that is read on one of them adds to the days' mean: worked out once, and
// not for each quarter-hour.
#[derive(Clone, Copy, Debug, PartialEq, Eq)]
pub struct Taken<'a> {
    pub readings: &'a [u8],
    pub starts: &'a [u64],
    pub share: u64,
    ghost some: { 1 ≤ length starts.now },
    ghost few: { length starts.now ≤ 10 },
    ghost shared: { share ≡ per_watt / length starts.now },
}

impl<'a> Taken<'a> {
    ghost use Rattle.volumes.specs.Baseline.{complete};
    ghost use Rattle.baseline.specs.TallyInner.{Summed, Tallied};
    ghost use Rattle.baseline.specs.RunsInner.{start_runs, Lie};

    // Whether n readings of each day, from `back` before its quarter-hour `place`, are all there, and their sum. A day that misses one of them adds nothing.
    #[inline]
    #[tactic(auto, using(crate::proofs::CaseLaws::lying_days))]
    pub fn tally(&self, place: usize, back: usize, n: usize) -> (bool, u64)
        requires { Lie self.now.readings.now self.now.starts.now place back n }
        ensures whole { result.0 ≡ complete (start_runs self.now.readings.now place back n self.now.starts.now) }
        ensures sum { Summed (start_runs self.now.readings.now place back n self.now.starts.now) (length self.now.starts.now * n) result.1 }
    {
        let mut whole = true;
        let mut sum: u64 = 0;
        for start in self.starts {
            let q = (*start as usize) + place;
            let tallied = tally_run(self.readings, q - back, n);
            whole &= tallied.is_some();
            sum += tallied.unwrap_or(0);
        }
        (whole, sum)
    }

    // Their sum, where none of them is missing.
    #[inline]
    pub fn sum(&self, place: usize, back: usize, n: usize) -> Option<u64>
        requires { Lie self.now.readings.now self.now.starts.now place back n }
        ensures { Tallied (start_runs self.now.readings.now place back n self.now.starts.now) (length self.now.starts.now * n) result }
    {
        let (whole, sum) = self.tally(place, back, n);
        if !whole {
            return None;
        }
        Some(sum)
    }
}
