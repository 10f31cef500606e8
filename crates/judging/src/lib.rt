// Judging a book: refusals 1 to 7.
#![tactic(auto)]

mod header;
pub mod judge;
mod tables;
