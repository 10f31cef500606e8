// A book that passes refusals 1 to 7, opened once: its sections, and the days on which each point has an engagement.
ghost use Rattle.settlement.specs.SectionsInner.{Opened, Spread};
ghost use Rattle.settlement.specs.DaysInner.{Gathered};

use crate::days::MOST_POINTS;
use crate::sections::{section, shown_of};
use baseline::case::Case;
use baseline::shown::Shown;
use book::{Engagement, Section};
use quarters::RangedCalendar;

// The engagements are a field of their own: they are the book's, or others that it is judged and settled with.
#[derive(Clone, Copy, Debug, PartialEq, Eq)]
pub struct OpenBook<'a> {
    pub book: &'a [u8],
    pub version: u16,
    pub c: RangedCalendar,
    pub calendar: &'a [u8],
    pub table: &'a [u8],
    pub register: &'a [u8],
    pub readings: &'a [u8],
    pub engagements: &'a [u8],
    pub engaged: &'a [u64],
    pub ghost opened: { Opened book.now engagements.now },
    pub ghost spread: { Spread book.now version c.calendar calendar.now table.now register.now readings.now },
    pub ghost gathered: { Gathered engagements.now engaged.now },
}

impl<'a> OpenBook<'a> {
    ghost use Rattle.std.specs.Prelude.{◌≡◌, ◌<◌};
    ghost use Rattle.std.proofs.Math.Option.{none};
    ghost use Rattle.book.specs.Header.{engagement_section};
    ghost use Rattle.book.specs.Book.{book_of};
    ghost use Rattle.book.specs.Judged.{refusal_of};
    ghost use Rattle.book.specs.Engagements.{engagement_at};
    ghost use Rattle.baseline.specs.CaseInner.{CaseOf};
    ghost use Rattle.settlement.specs.SectionsInner.{engagement_count_in, shown_in};
    ghost use Rattle.settlement.specs.OpenedInner.{book_in};

    // A book with its own engagements, whose days are gathered in the masks that are lent; what these had counts for nothing.
    pub fn of(book: &'a [u8], engaged: &'a mut [u64; MOST_POINTS]) -> OpenBook<'a>
        requires { refusal_of book.now ≡ none }
        ensures bytes { result.book.now ≡ book.now }
        ensures own { result.engagements.now ≡ engagement_section book.now }
        ensures whole { book_in result ≡ book_of book.now }
    {
        let engagements = section(book, Section::Engagements);
        engaged.fill(0);
        crate::days::gather_days(engagements, engaged);
        OpenBook {
            book,
            version: book::header::version_of(book),
            c: book::header::calendar_of(book),
            calendar: section(book, Section::Calendar),
            table: section(book, Section::Table),
            register: section(book, Section::Register),
            readings: section(book, Section::Readings),
            engagements,
            engaged,
        }
    }

    // How many engagements there are.
    pub fn count(&self) -> usize
        ensures { result ≡ engagement_count_in self.now.engagements.now }
    {
        self.engagements.len() / 16
    }

    // An engagement's number is one with that bound: callers have it from a range, and a type for it, which would hold the book once more, is no plainer.
    pub fn engagement(&self, i: usize) -> Engagement
        requires { i < engagement_count_in self.now.engagements.now }
        ensures { result ≡ engagement_at self.now.engagements.now i }
    {
        book::engagements::engagement_at(self.engagements, i)
    }

    // What the book shows of engagement i, with the days on which its point has one.
    pub fn shown_at(&self, i: usize) -> Shown
        requires { i < engagement_count_in self.now.engagements.now }
        ensures { result ≡ shown_in self.now.book.now self.now.engagements.now self.now.engaged.now i }
    {
        let e = self.engagement(i);
        shown_of(
            self.c.calendar,
            self.calendar,
            self.table,
            self.register,
            self.engaged,
            e,
        )
    }

    // The same with the categories, and with the readings of its point.
    pub fn case_at(&self, i: usize) -> Case<'a>
        requires { i < engagement_count_in self.now.engagements.now }
        ensures { CaseOf result (book_in self.now) × (result.shown.e ≡ engagement_at self.now.engagements.now i) }
    {
        let shown = self.shown_at(i);
        let readings = self.readings;
        let first = 4 * self.c.origin_of(shown.e.point);
        Case {
            shown,
            calendar: self.calendar,
            readings: &readings[first..],
        }
    }
}
