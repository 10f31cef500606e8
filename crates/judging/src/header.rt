// Refusals 1 and 2: the header, and the sections' places.
ghost use Rattle.std.specs.Prelude.{◌≡◌, true, ◌+◌, ◌*◌, ◌≤◌, length};
ghost use Rattle.book.specs.Header.{version_of, calendar_of, point_count, engagement_count, between, header_fields, header_good, is_extent, sizes, adjoining};
ghost use Rattle.book.specs.SectionsInner.{extent_of};
ghost use Rattle.judging.specs.HeaderInner.{places_of};

use book::Section;
use book::header::{calendar_of, engagement_count, point_count, version_of};
use quarters::RangedCalendar;

// The range's own `contains`, called five times in `header_fields`, was tried: what that ensures didn't close.
fn between(least: u16, most: u16, n: u16) -> bool
    ensures { result ≡ between least most n }
{
    (least..=most).contains(&n)
}

#[tactic(auto, unfolding(book::specs::Header::header_fields))]
fn header_fields(book: &[u8]) -> bool
    requires { 56 ≤ length book.now }
    ensures { result ≡ header_fields book.now }
{
    between(1, 2, wire::u16_at(book, 0))
        && between(2018, 2099, wire::u16_at(book, 2))
        && between(1, 12, wire::u8_at(book, 4) as u16)
        && between(1, 33, wire::u8_at(book, 5) as u16)
        && between(1, 256, wire::u16_at(book, 6))
        && wire::u16_at(book, 8) <= 512
        && wire::are_zero(&book[10..16])
}

#[tactic(auto, unfolding(book::specs::Header::header_good))]
pub fn header_good(book: &[u8]) -> bool
    ensures { result ≡ header_good book.now }
{
    56 <= book.len() && header_fields(book)
}

// What a good header says: the version, the calendar, and how many points and engagements there are.
#[derive(Clone, Copy, Debug, PartialEq, Eq)]
pub struct Header {
    pub version: u16,
    pub calendar: RangedCalendar,
    pub points: usize,
    pub rows: usize,
    ghost few_points: { points ≤ 256 },
    ghost few_rows: { rows ≤ 512 },
}

impl Header {
    #[tactic(auto, using(book::specs::HeaderLaws::headed))]
    pub fn of(book: &[u8]) -> Header
        requires { header_good book.now ≡ true }
        ensures version { result.version ≡ version_of book.now }
        ensures calendar { result.calendar.calendar ≡ calendar_of book.now }
        ensures points { result.points ≡ point_count book.now }
        ensures rows { result.rows ≡ engagement_count book.now }
    {
        let version = version_of(book);
        let calendar = calendar_of(book);
        let points = point_count(book);
        let rows = engagement_count(book);
        Header {
            version,
            calendar,
            points,
            rows,
        }
    }
}

// The section's extent is this offset and this length.
fn extent_is(book: &[u8], section: Section, offset: usize, size: usize) -> bool
    requires { 56 ≤ length book.now }
    ensures { result ≡ is_extent book.now (extent_of section) offset size }
{
    let k = section.extent();
    wire::u32_at(book, 16 + 8 * k) as usize == offset
        && wire::u32_at(book, 20 + 8 * k) as usize == size
}

// Where the sections start; the first starts at 56.
#[derive(Clone, Copy, Debug, PartialEq, Eq)]
struct Places {
    table: usize,
    register: usize,
    readings: usize,
    engagements: usize,
    end: usize,
}

#[tactic(auto, using(crate::proofs::HeaderLaws::few_places))]
fn layout_at(header: Header) -> Places
    ensures { result ≡ places_of header.calendar.calendar header.points header.rows }
{
    let days = header.calendar.days() as usize;
    let quarters = header.calendar.quarters() as usize;
    let table = 56 + days;
    let register = table + 8;
    let readings = register + 64 * header.points;
    let engagements = readings + 4 * quarters * header.points;
    let end = engagements + 16 * header.rows;
    Places {
        table,
        register,
        readings,
        engagements,
        end,
    }
}

#[tactic(auto, using(crate::proofs::HeaderLaws::few_places))]
pub fn layout_good(book: &[u8], header: Header) -> bool
    requires { 56 ≤ length book.now }
    ensures { result ≡ adjoining book.now 0 56 (sizes header.calendar.calendar header.points header.rows) }
{
    let p = layout_at(header);
    let days = header.calendar.days() as usize;
    let readings = 4 * (header.calendar.quarters() as usize) * header.points;
    let calendar = extent_is(book, Section::Calendar, 56, days);
    let table = extent_is(book, Section::Table, p.table, 8);
    let register = extent_is(book, Section::Register, p.register, 64 * header.points);
    let read = extent_is(book, Section::Readings, p.readings, readings);
    let engagements = extent_is(book, Section::Engagements, p.engagements, 16 * header.rows);
    calendar && table && register && read && engagements && book.len() == p.end
}
