// A file's bytes, laid part by part into a sink: one that measures, or one that writes.
#![tactic(auto)]

ghost use Rattle.message.specs.Valid.{IsPeriod};

use kinds::Kind;

pub mod measure;
pub mod parts;
pub mod sink;
pub mod write;

// Which file it is: its kind, its receiver, and the month of its series.
// The month is two numbers, as C gives them: an `Option` would ask more of callers.
#[derive(Clone, Copy, Debug, PartialEq, Eq)]
pub struct Title {
    pub kind: Kind,
    pub receiver: u64,
    pub year: u64,
    pub month: u64,
}

// Of which kind of file and of which month series are; a month that series may have.
#[derive(Clone, Copy, Debug, PartialEq, Eq)]
pub struct SeriesTitle {
    pub kind: Kind,
    pub year: u64,
    pub month: u64,
    pub ghost is_period: { IsPeriod year month },
}

// What a file is marked with: its transaction ID and its moment.
#[derive(Clone, Copy, Debug, PartialEq, Eq)]
pub struct Stamp<'a> {
    pub id: &'a [u8],
    pub moment: &'a [u8],
}
