// Stored cases: the lines of standard input, the words of a line, the sparse bytes that they say, and the answers that are printed.
#![tactic(auto)]

pub mod answers;
pub mod hex;
pub mod input;
pub mod lent;
pub mod sparse;
pub mod words;

// How much of its input a program reads, and room for a largest book: 256 points, 29 days, 512 engagements.
pub const TEXT_MOST: u64 = 700000;

pub const BOOK_ROOM: usize = 3000000;
