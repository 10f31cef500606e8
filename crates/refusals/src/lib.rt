// What a call sends back and what it leaves in the buffers that it was lent, in specs/, and its refusals as one enum.
#![tactic(auto)]

ghost use Rattle.std.specs.Prelude.{◌≡◌};
ghost use Rattle.refusals.specs.Sent.{sent_back};

use std::error::Error;
use std::fmt;

// Why a call is refused. A case that has an item carries it: the first bad row, point or engagement row, counted from 0.
#[derive(Clone, Copy, Debug, PartialEq, Eq)]
pub enum Refused {
    Header,
    Layout,
    Tables,
    Register(usize),
    Readings(usize),
    Engagements(usize),
    Missing(usize),
    TooFew(usize),
    // Which buffer, counted from 0.
    Short(usize),
    Role,
    Malformed,
    NoFile,
}

impl Refused {
    // The number that document 01 gives it. A match, since a case that carries its item has no number by `as`, and 3 is none of them.
    pub fn number(self) -> u64
        ensures { result ≡ (sent_back self).number }
    {
        match self {
            Refused::Header => 1,
            Refused::Layout => 2,
            Refused::Tables => 4,
            Refused::Register(_) => 5,
            Refused::Readings(_) => 6,
            Refused::Engagements(_) => 7,
            Refused::Missing(_) => 8,
            Refused::TooFew(_) => 9,
            Refused::Short(_) => 10,
            Refused::Role => 11,
            Refused::Malformed => 12,
            Refused::NoFile => 13,
        }
    }

    // The item that is sent back with the number.
    pub fn item(self) -> usize
        ensures { result ≡ (sent_back self).item }
    {
        match self {
            Refused::Register(item)
            | Refused::Readings(item)
            | Refused::Engagements(item)
            | Refused::Missing(item)
            | Refused::TooFew(item)
            | Refused::Short(item) => item,
            _ => 0,
        }
    }
}

impl fmt::Display for Refused {
    fn fmt<W: fmt::Write>(&self, f: &mut fmt::Formatter<W>) -> fmt::Result {
        write!(f, "refused {} {}", self.number(), self.item())
    }
}

impl Error for Refused {}
