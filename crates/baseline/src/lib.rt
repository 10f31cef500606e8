// Baselines: reference days, their ranking, and what each method makes of them.
#![tactic(auto)]

pub mod case;
mod days;
pub mod fill;
pub mod judge;
pub mod levels;
mod ranking;
pub mod shown;
mod taken;
mod tally;
