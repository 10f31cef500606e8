// The sheets of balance parties.
#![tactic(auto)]

pub mod cells;
pub mod fill;
pub mod parties;
