// From the book to its volumes: definitions and their laws. The one function here does nothing; what it ensures has to be proved.
#![tactic(auto)]

ghost use Rattle.volumes.specs.Examples.{Checked};

use book::{Direction, Supply};

// "A series is one partner, supply and delivery direction"
#[derive(Clone, Copy, Debug, PartialEq, Eq)]
pub struct Series {
    pub partner: u64,
    pub supply: Supply,
    pub delivery: Direction,
}

// P1 to P10 of document 01, together.
#[tactic(auto, using(crate::proofs::ExamplesLaws::checked))]
pub fn examples_hold()
    ensures { Checked }
{}
