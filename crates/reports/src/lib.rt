// The sheets and files of a book: demand 3 of the calls' contracts. Definitions and laws stand in specs/; crate `filing` has the calls.
#![tactic(auto)]

ghost use Rattle.reports.specs.Demand3.{Demand3, Possible};
ghost use Rattle.reports.specs.Small.{SmallShown};
ghost use Rattle.reports.specs.Pool.{PoolShown};
ghost use Rattle.reports.specs.March.{MarchShown};

// Demand 3. It does nothing: what it ensures has to be proved.
#[tactic(auto, using(crate::proofs::Demand3Laws::calls_agree))]
pub fn sheets_and_files_agree()
    ensures { Demand3 }
{}

// Of every accepted book there are calls as demand 3 wants them.
#[tactic(auto, using(crate::proofs::PossibleLaws::possible))]
pub fn such_calls_exist()
    ensures { Possible }
{}

// There is an accepted book whose file has watts.
#[tactic(auto, using(crate::proofs::SmallLaws::shown))]
pub fn small_book_has_watts()
    ensures { SmallShown }
{}

// There is an accepted book whose files of all three kinds have watts that no point has alone at their position.
#[tactic(auto, using(crate::proofs::PoolLaws::shown))]
pub fn pool_files_have_watts()
    ensures { PoolShown }
{}

// There is an accepted book of March whose file has watts behind the clock change.
#[tactic(auto, using(crate::proofs::MarchLaws::shown))]
pub fn march_book_has_watts()
    ensures { MarchShown }
{}
