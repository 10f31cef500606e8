// Refusals 1 to 7, in their order.
ghost use Rattle.std.specs.Prelude.{◌≡◌, true, ◌*◌, ◌≤◌, length};
ghost use Rattle.quarters.specs.Quarters.{quarters_of};
ghost use Rattle.book.specs.Header.{sizes, adjoining, calendar_section, table_section, register_section, reading_section, engagement_section};
ghost use Rattle.book.specs.Judged.{rows_refusal, sections_refusal, refusal_of};
ghost use Rattle.refusals.specs.SentInner.{refusal_in};

use crate::header::{Header, header_good, layout_good};
use crate::tables::{calendar_good, table_good};
use book::Section;
use book::sections::section;
use refusals::Refused;
use searches::engagements::judge_engagements;
use searches::metering::judge_readings;
use searches::register::judge_register;

// The sections with rows, of a book whose layout is good.
#[derive(Clone, Copy, Debug, PartialEq, Eq)]
struct RowSections<'a> {
    header: Header,
    register: &'a [u8],
    readings: &'a [u8],
    engagements: &'a [u8],
    ghost registered: { 64 * header.points ≤ length register.now },
    ghost read: { 4 * quarters_of header.calendar.calendar * header.points ≤ length readings.now },
    ghost engaged: { 16 * header.rows ≤ length engagements.now },
}

impl<'a> RowSections<'a> {
    // The rows and the readings: 5 to 7.
    #[tactic(auto, using(crate::proofs::JudgedLaws::few_rows), unfolding(book::specs::Judged::rows_refusal, book::specs::Metering::first_bad_reading))]
    fn judge(self) -> Result<(), Refused>
        ensures { refusal_in result ≡ rows_refusal self.entry.header.version self.entry.header.calendar.calendar self.entry.header.points self.entry.header.rows self.entry.register.now self.entry.readings.now self.entry.engagements.now }
    {
        let h = self.header;
        let days = h.calendar.days() as u32;
        let quarters = h.calendar.quarters() as usize;
        if let Some(row) = judge_register(h.version, self.register, h.points, days) {
            return Err(Refused::Register(row));
        }
        if let Some(i) = judge_readings(self.readings, quarters * h.points) {
            return Err(Refused::Readings(i / quarters));
        }
        if let Some(row) = judge_engagements(self.engagements, h.rows, h.calendar, h.points) {
            return Err(Refused::Engagements(row));
        }
        Ok(())
    }
}

// The sections of a book whose layout is good: 4 to 7.
#[tactic(auto, using(book::specs::HeaderLaws::laid), unfolding(book::specs::Judged::sections_refusal))]
fn judge_sections(book: &[u8], header: Header) -> Result<(), Refused>
    requires { adjoining book.now 0 56 (sizes header.calendar.calendar header.points header.rows) ≡ true }
    ensures { refusal_in result ≡ sections_refusal header.version header.calendar.calendar header.points header.rows (calendar_section book.now) (table_section book.now) (register_section book.now) (reading_section book.now) (engagement_section book.now) }
{
    let good = calendar_good(section(book, Section::Calendar))
        && table_good(section(book, Section::Table));
    if !good {
        return Err(Refused::Tables);
    }
    let sections = RowSections {
        header,
        register: section(book, Section::Register),
        readings: section(book, Section::Readings),
        engagements: section(book, Section::Engagements),
    };
    sections.judge()
}

#[tactic(auto, using(book::specs::HeaderLaws::headed), unfolding(book::specs::Judged::refusal_of, book::specs::Header::layout_good))]
pub fn judge_book(book: &[u8]) -> Result<(), Refused>
    ensures { refusal_in result ≡ refusal_of book.now }
{
    if !header_good(book) {
        return Err(Refused::Header);
    }
    let header = Header::of(book);
    if !layout_good(book, header) {
        return Err(Refused::Layout);
    }
    judge_sections(book, header)
}
