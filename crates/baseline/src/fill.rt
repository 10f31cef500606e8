// The raised baselines of an engagement's quarter-hours.
ghost use Rattle.std.specs.Prelude.{◌≡◌, true, ◌+◌, ◌*◌, ◌≤◌, length};
ghost use Rattle.grains.specs.Grains.{grains};
ghost use Rattle.volumes.specs.Quarters.{reference_quarter};
ghost use Rattle.baseline.specs.RunsInner.{start_runs};
ghost use Rattle.baseline.specs.NeedsInner.{looks_back};
ghost use Rattle.baseline.specs.FilledInner.{Accepts, Levels, LevelsFilled};
ghost use Rattle.baseline.specs.FillsInner.{Raises, Fills, LieAll};
ghost use Rattle.quarters.specs.QuartersInner.{longest_day};
ghost use Rattle.wire.specs.ReadingsInner.{raise};

use crate::case::Case;
use crate::judge::looks_back;
use crate::ranking::Ranking;
use crate::shown::Shown;
use crate::taken::Taken;
use grains::Grains;

impl Shown {
    // The mean of what stands for each quarter-hour on the days that are taken, and an addend.
    fn fill_means(&self, taken: &Taken, add: u64, levels: &mut [u64])
        requires { LieAll taken.now.readings.now taken.now.starts.now self.now.c self.now.e (length levels.old) × (add ≤ grains (4 * raise)) × (length levels.old ≤ longest_day) }
        ensures { Fills (λ k. Raises (start_runs taken.now.readings.now (reference_quarter self.now.c self.now.e.day (self.now.e.first + k)) 0 1 taken.now.starts.now) (length taken.now.starts.now) add) (length levels.old) levels.new }
    {
        for (k, level) in levels.iter_mut().enumerate() {
            *level = taken.mean(self.reference_quarter(k)) + add;
        }
    }
}

impl<'a> Case<'a> {
    // Methods 1 and 2: the days are ranked, and the first X of them taken.
    fn fill_days(&self, levels: &mut [u64])
        requires { Accepts self.now.shown self.now.calendar.now self.now.readings.now × (looks_back self.now.shown.point.method ≡ true) × (length levels.old ≡ self.now.shown.e.count) }
        ensures { Levels self.now.shown self.now.calendar.now self.now.readings.now levels.new }
    {
        let mut ranking = Ranking::new();
        self.fill_ranking(&mut ranking);
        let starts = &mut ranking.keys[..self.shown.x];
        crate::taken::start_days(self.shown.c, starts);
        let taken = Taken {
            readings: self.readings,
            starts,
            share: Grains::mean(1, starts.len() as u64).count,
        };
        let place = self.shown.reference_quarter(0);
        let add = taken.addend(self.shown.point.method, place, self.start());
        self.shown.fill_means(&taken, add, levels);
    }

    // The raised baselines of an engagement that is not refused, in the first places; the others stay.
    #[tactic(auto, using(crate::proofs::JudgedLaws::levels_judged))]
    pub fn fill_levels(&self, levels: &mut [u64])
        requires { Accepts self.now.shown self.now.calendar.now self.now.readings.now × (self.now.shown.e.count ≤ length levels.old) }
        ensures { LevelsFilled self.now.shown self.now.calendar.now self.now.readings.now levels.old levels.new }
    {
        let own = &mut levels[..self.shown.e.count as usize];
        if looks_back(self.shown.point.method) {
            self.fill_days(own);
        } else {
            own.fill(self.last_level());
        }
    }
}
