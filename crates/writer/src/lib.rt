// The writer of a file.
#![tactic(auto)]

mod judging;
pub mod round_trip;
mod runs;
pub mod writing;

// A row: partner, supply and delivery direction, position, watts, 0.
// Six numbers and no struct, and directions no enum: C lends rows as they lie, and a caller's may hold any numbers.
pub type FileRow = [u64; 6];
