// The header: the version, the calendar, and how many points and engagements there are.
ghost use Rattle.std.specs.Prelude.{◌≡◌, true, ◌≤◌, length};
ghost use Rattle.book.specs.Header.{version_of, splits, calendar_of, point_count, engagement_count, header_good};

use calendar::dates::Month;
use quarters::{Calendar, RangedCalendar};

#[tactic(auto, using(crate::specs::HeaderLaws::headed))]
pub fn calendar_of(book: &[u8]) -> RangedCalendar
    requires { header_good book.now ≡ true }
    ensures { result.calendar ≡ calendar_of book.now }
{
    let year = wire::u16_at(book, 2) as u64;
    let month = wire::u8_at(book, 4) as u64;
    let lead = wire::u8_at(book, 5) as u64;
    let clock = Month { year, month }.clock(lead);
    let calendar = Calendar {
        year,
        month,
        lead,
        clock,
    };
    RangedCalendar { calendar }
}

// What the header's bytes say. Each asks for all 56 of them: a struct of a book that has them would be made only to make `judging`'s `Header` and
// `settlement`'s `OpenBook`, which ask for nothing more.
pub fn version_of(book: &[u8]) -> u16
    requires { 56 ≤ length book.now }
    ensures { result ≡ version_of book.now }
{
    wire::u16_at(book, 0)
}

// Whether a book of this version has a source party for off-take and one for injection.
pub fn splits(version: u16) -> bool
    ensures { result ≡ splits version }
{
    2 <= version
}

// How many points and how many engagements there are: columns with names of their own, as X and Y are.
pub fn point_count(book: &[u8]) -> usize
    requires { 56 ≤ length book.now }
    ensures { result ≡ point_count book.now }
{
    wire::u16_at(book, 6) as usize
}

pub fn engagement_count(book: &[u8]) -> usize
    requires { 56 ≤ length book.now }
    ensures { result ≡ engagement_count book.now }
{
    wire::u16_at(book, 8) as usize
}
