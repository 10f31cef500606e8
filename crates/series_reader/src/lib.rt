// The reader's loops over observations and over the series of a partner: each row goes behind those that were read before it.
#![tactic(auto)]

pub mod elements;
pub mod rows;
pub mod series;
