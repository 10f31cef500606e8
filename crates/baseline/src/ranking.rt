// The latest eligible days, ranked by keys: a day's sum, raised, and behind it the day.
ghost use Rattle.std.specs.Prelude.{◌≡◌, [], ◌∷◌, ◌++◌, ◌+◌, ◌*◌, ◌≤◌, ◌<◌, length, take, drop};
ghost use Rattle.book.specs.Book.{Book};
ghost use Rattle.baseline.specs.RankingInner.{inserted};
ghost use Rattle.baseline.specs.RanksInner.{RankedTo};
ghost use Rattle.baseline.specs.CaseInner.{CaseOf};

use crate::case::Case;

// Puts a key into a list that falls, and answers what then stands behind it.
fn insert(keys: &mut [u64], key: u64) -> u64
    ensures { keys.new ++ result ∷ [] ≡ inserted key keys.old }
{
    let mut carried = key;
    for k in keys {
        let here = *k;
        *k = here.max(carried);
        carried = here.min(carried);
    }
    carried
}

// The first `found` keys are ranked.
#[derive(Clone, Copy, Debug, PartialEq, Eq)]
pub struct Ranking {
    pub keys: [u64; 20],
    pub found: usize,
}

impl Ranking {
    // None is ranked yet.
    #[inline]
    pub fn new() -> Ranking
        ensures found { result.found ≡ 0 }
        ensures room { length result.keys ≡ 20 }
    {
        Ranking {
            keys: [0; 20],
            found: 0,
        }
    }

    // Puts one more key into its place.
    fn put(&mut self, key: u64)
        requires { self.old.found < 20 }
        ensures found { self.new.found ≡ self.old.found + 1 }
        ensures keys { take self.new.found self.new.keys ≡ inserted key (take self.old.found self.old.keys) }
        ensures behind { drop self.new.found self.new.keys ≡ drop self.new.found self.old.keys }
        ensures room { length self.new.keys ≡ length self.old.keys }
    {
        let last = insert(&mut self.keys[..self.found], key);
        self.keys[self.found] = last;
        self.found += 1;
    }
}

impl<'a> Case<'a> {
    // Ranks the Y latest eligible days before the engagement's. A day's sum and the day are one number, so that among equal sums the later day's is the greater, and
    // days are put in order as numbers are. The keys behind them stay. The ranking is lent: given back by value its keys would be copied, for which the library would need `memcpy` from outside.
    #[tactic(auto, using(crate::proofs::JudgedLaws::ranks_judged))]
    pub fn fill_ranking(&self, ranking: &mut Ranking)
        requires { length ranking.old.keys ≡ 20 }
        ensures few { ranking.new.found ≤ self.now.shown.y }
        ensures behind { drop ranking.new.found ranking.new.keys ≡ drop ranking.new.found ranking.old.keys }
        ensures room { length ranking.new.keys ≡ 20 }
        ensures ranked { (b : Book) → CaseOf self.now b → RankedTo b self.now.shown.e self.now.shown.y (take ranking.new.found ranking.new.keys) }
    {
        let y = self.shown.y;
        ranking.found = 0;
        for day in (0..self.shown.e.day as usize).rev() {
            if ranking.found == y {
                return;
            }
            if let Some(sum) = self.reference_day(day) {
                ranking.put(sum * 64 + (day as u64));
            }
        }
    }

    // The same in a ranking of its own, for whoever lends none: no call of the library's goes by it.
    pub fn rank_days(&self) -> Ranking
        ensures few { result.found ≤ self.now.shown.y }
        ensures room { length result.keys ≡ 20 }
        ensures ranked { (b : Book) → CaseOf self.now b → RankedTo b self.now.shown.e self.now.shown.y (take result.found result.keys) }
    {
        let mut ranking = Ranking::new();
        self.fill_ranking(&mut ranking);
        ranking
    }
}
