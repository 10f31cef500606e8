// Refusals 8 and 9 of an engagement.
ghost use Rattle.std.specs.Prelude.{◌≡◌, ◌+◌, ◌*◌, ◌≤◌, length};
ghost use Rattle.book.specs.Book.{Book};
ghost use Rattle.volumes.specs.Quarters.{start};
ghost use Rattle.volumes.specs.Baseline.{known, complete, eligible_days};
ghost use Rattle.volumes.specs.Settlement.{needed, too_few, refusal_number};
ghost use Rattle.baseline.specs.ShownInner.{before_in};
ghost use Rattle.baseline.specs.CaseInner.{CaseOf};
ghost use Rattle.baseline.specs.NeedsInner.{needed_in, looks_back, number_of};

use crate::case::Case;
use crate::ranking::Ranking;
use book::Method;

// What an engagement lacks: a reading, or reference days.
#[derive(Clone, Copy, Debug, PartialEq, Eq)]
pub enum Lack {
    Reading,
    Days,
}

// The reading n quarter-hours before quarter-hour q is there.
#[tactic(auto, using(crate::proofs::CaseLaws::raised_readings), unfolding(volumes::specs::Baseline::known))]
fn known_before(readings: &[u8], q: usize, n: usize) -> bool
    requires { (1 ≤ n) × (4 * q ≤ length readings.now) }
    ensures { result ≡ known (before_in readings.now q n) }
{
    if q < n {
        return false;
    }
    wire::raised_at(readings, q - n).is_some()
}

// Whether the method looks at reference days.
#[tactic(auto, unfolding(crate::specs::NeedsInner::looks_back))]
pub fn looks_back(method: Method) -> bool
    ensures { result ≡ looks_back method }
{
    !matches!(method, Method::LastQuarter)
}

impl<'a> Case<'a> {
    // The readings that the method needs besides those of the engagement's quarter-hours are there. The method stands in the book's row, so it is a value and no
    // type.
    #[tactic(auto, using(crate::proofs::CaseLaws::placed, crate::proofs::CaseLaws::wholes), unfolding(crate::specs::NeedsInner::needed_in, volumes::specs::Baseline::complete))]
    fn method_whole(&self) -> bool
        ensures { result ≡ complete (needed_in self.now.shown.point.method self.now.readings.now (start self.now.shown.c self.now.shown.e) self.now.shown.e.notice) }
    {
        let q = self.start();
        match self.shown.point.method {
            Method::LastQuarter => known_before(self.readings, q, self.shown.e.notice as usize + 1),
            Method::HighXOfY => true,
            Method::Adjusted => crate::days::window(self.readings, q).is_some(),
        }
    }

    // The readings of A that the engagement needs are there.
    #[tactic(auto, using(crate::proofs::CaseLaws::placed, crate::proofs::CaseLaws::wholes, crate::proofs::JudgedLaws::needs_judged))]
    fn readings_whole(&self) -> bool
        ensures { (b : Book) → CaseOf self.now b → result ≡ complete (needed b self.now.shown.e) }
    {
        let count = self.shown.e.count as usize;
        let own = crate::tally::tally_run(self.readings, self.start(), count);
        own.is_some() & self.method_whole()
    }

    // Fewer than Y days are eligible, where the method looks at them.
    #[tactic(auto, using(crate::proofs::JudgedLaws::few_judged))]
    fn too_few(&self) -> bool
        ensures { (b : Book) → CaseOf self.now b → result ≡ too_few self.now.shown.point.method self.now.shown.y (length (eligible_days b self.now.shown.e)) }
    {
        if !looks_back(self.shown.point.method) {
            return false;
        }
        let mut ranking = Ranking::new();
        self.fill_ranking(&mut ranking);
        ranking.found < self.shown.y
    }

    // What the engagement lacks: 8 before 9.
    #[tactic(auto, using(crate::proofs::JudgedLaws::lacks_judged))]
    pub fn judge(&self) -> Result<(), Lack>
        ensures { (b : Book) → CaseOf self.now b → number_of result ≡ refusal_number b self.now.shown.e }
    {
        if !self.readings_whole() {
            return Err(Lack::Reading);
        }
        if self.too_few() {
            return Err(Lack::Days);
        }
        Ok(())
    }
}
