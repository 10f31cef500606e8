// The month's book: its layout, and its sections as parts of the book.
#![tactic(auto)]

pub mod engagements;
pub mod header;
pub mod register;
pub mod sections;
pub mod tables;

// Why an activation does or doesn't pass through the supplier.
#[derive(Clone, Copy, Debug, PartialEq, Eq)]
pub enum Situation {
    Transfer,
    PassThrough,
    OptOut,
    NetInjector,
}

// The file kinds that take a delivery point: 01 and 02, 03, none; or no situation at all. Document 01 names this form: a match on the situation's byte, other
// values refused.
#[derive(Clone, Copy, Debug, PartialEq, Eq)]
pub enum Takers {
    Aggregated,
    Individual,
    Neither,
    Refused,
}

#[derive(Clone, Copy, Debug, PartialEq, Eq)]
pub enum Supply {
    OffTake,
    Injection,
}

// How a delivery point's baseline is made.
#[derive(Clone, Copy, Debug, PartialEq, Eq)]
pub enum Method {
    LastQuarter,
    HighXOfY,
    Adjusted,
}

#[derive(Clone, Copy, Debug, PartialEq, Eq)]
pub enum Direction {
    Up,
    Down,
}

// The sections of a book, in the order of their extents.
#[derive(Clone, Copy, Debug, PartialEq, Eq)]
pub enum Section {
    Calendar,
    Table,
    Register,
    Readings,
    Engagements,
}

// A delivery point, a row of the register.
#[derive(Clone, Copy, Debug, PartialEq, Eq)]
pub struct Point {
    pub delivery: u64,
    pub access: u64,
    pub supplier: u64,
    pub fsp: u64,
    // Excluded days, the lowest bit being day 0.
    pub mask: u64,
    // The largest watts each way.
    pub upward: u32,
    pub downward: u32,
    // The balance parties.
    pub sourceparty: u16,
    pub fspparty: u16,
    pub injectionparty: u16,
    // The situation, and by the same byte the file kinds that take the point.
    pub situation: Situation,
    pub takers: Takers,
    pub supply: Supply,
    pub method: Method,
}

// An activation of a delivery point: `count` quarter-hours from `first` on.
#[derive(Clone, Copy, Debug, PartialEq, Eq)]
pub struct Engagement {
    pub point: u16,
    pub day: u8,
    pub first: u8,
    pub count: u8,
    pub direction: Direction,
    pub notice: u8,
    pub requested: u32,
}
