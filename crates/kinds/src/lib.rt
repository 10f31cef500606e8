// The kinds of file, TOE01, TOE02 and TOE03, and their numbers.
#![tactic(auto)]

ghost use Rattle.std.specs.Prelude.{◌≡◌};
ghost use Rattle.kinds.specs.Numbers.{kind_number};
ghost use Rattle.kinds.specs.NumbersInner.{Numbered};
ghost use Rattle.refusals.specs.declared.Refused.TheVariants.{Malformed};

use refusals::Refused;
use std::error::Error;
use std::fmt;

#[derive(Clone, Copy, Debug, PartialEq, Eq)]
pub enum Kind {
    Toe01,
    Toe02,
    Toe03,
}

// A number that is of no kind.
#[derive(Clone, Copy, Debug, PartialEq, Eq)]
pub struct UnknownKind;

impl TryFrom<u64> for Kind {
    type Error = UnknownKind;

    ghost try_from_gives = { Numbered };

    fn try_from(number: u64) -> Result<Self, UnknownKind> {
        match number {
            1 => Ok(Kind::Toe01),
            2 => Ok(Kind::Toe02),
            3 => Ok(Kind::Toe03),
            _ => Err(UnknownKind),
        }
    }
}

// 1 to 3, as document 01 numbers them.
impl From<Kind> for u64 {
    ghost from_gives = { λ kind number. number ≡ kind_number kind };

    fn from(kind: Kind) -> u64 {
        match kind {
            Kind::Toe01 => 1,
            Kind::Toe02 => 2,
            Kind::Toe03 => 3,
        }
    }
}

impl fmt::Display for UnknownKind {
    fn fmt<W: fmt::Write>(&self, f: &mut fmt::Formatter<W>) -> fmt::Result {
        f.write_str("no kind of file has this number")
    }
}

impl Error for UnknownKind {}

// "12 for the kind"
impl From<UnknownKind> for Refused {
    ghost from_gives = { λ _ refused. refused ≡ Malformed };

    fn from(_unknown: UnknownKind) -> Refused {
        Refused::Malformed
    }
}
