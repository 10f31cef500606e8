// The sections of a book that has been judged, and what they show of an engagement.
ghost use Rattle.std.specs.Prelude.{◌≡◌, ◌+◌, ◌*◌, ◌≤◌, ◌<◌, length};
ghost use Rattle.std.proofs.Math.Option.{none};
ghost use Rattle.book.specs.Header.{section_of};
ghost use Rattle.book.specs.Judged.{refusal_of};
ghost use Rattle.book.specs.SectionsInner.{extent_of};
ghost use Rattle.book.specs.Tables.{category_at};
ghost use Rattle.settlement.specs.SectionsInner.{shown_of};

use baseline::shown::Shown;
use book::{Engagement, Section};
use quarters::Calendar;

// A section of a book that passes refusals 1 to 7. That it passes is a clause, here and where rows, sheets and volumes are filled: these take the bytes that a
// caller has. A struct of the bytes and this clause is no plainer: each of these functions would be a method of it, and each caller would make it for its few
// calls. `OpenBook` is the struct of such a book's parts.
pub fn section(book: &[u8], section: Section) -> &[u8]
    requires { refusal_of book.now ≡ none }
    ensures { result.now ≡ section_of book.now (extent_of section) }
{
    book::sections::section(book, section)
}

// What a book's calendar, table and register show of an engagement; `engaged` has the days on which each point counts as having one, whichever they are.
pub fn shown_of(
    c: Calendar,
    calendar: &[u8],
    table: &[u8],
    register: &[u8],
    engaged: &[u64],
    e: Engagement,
) -> Shown
    requires { (e.day < length calendar.now) × (2 * category_at calendar.now e.day + 2 ≤ length table.now) × (64 * e.point + 64 ≤ length register.now) × (e.point < length engaged.now) }
    ensures { result ≡ shown_of c calendar.now table.now register.now engaged.now e }
{
    let point = book::register::point_at(register, e.point as usize);
    let closed = point.mask | engaged[e.point as usize];
    let category = book::tables::category(calendar, e.day as usize) as usize;
    Shown {
        c,
        e,
        point,
        closed,
        x: book::tables::x_of(table, category) as usize,
        y: book::tables::y_of(table, category) as usize,
    }
}
