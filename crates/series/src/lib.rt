// A series' watts by position, from the delivered volumes of a book.
#![tactic(auto)]

use kinds::Kind;
use volumes::Series;

pub mod delivered;
pub mod points;
pub mod sums;

// Whose file: a receiver in its role, "FSP for kind 01, supplier for 02 and 03".
#[derive(Clone, Copy, Debug, PartialEq, Eq)]
pub struct Role {
    pub kind: Kind,
    pub receiver: u64,
}

// A series of a receiver's file.
#[derive(Clone, Copy, Debug, PartialEq, Eq)]
pub struct FileSeries {
    pub role: Role,
    pub series: Series,
}
