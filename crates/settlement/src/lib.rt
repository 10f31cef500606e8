// Settling: judging a book to the end, and the rows of its engagements.
#![tactic(auto)]

pub mod days;
pub mod fill;
pub mod judge;
pub mod opened;
pub mod rows;
pub mod sections;
pub mod settle;
