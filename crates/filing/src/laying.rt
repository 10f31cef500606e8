// A receiver's file is laid partner by partner: the partner's rows are filled, and the writer's emitter lays them. The rows need room for four series of a
// longest month, since `fill_partner` asks it. `delivered`, `role` and `stamp` are shared, while `rows` is lent by `&mut` from partner to partner: a struct of
// the shared ones would be made for the two calls of `write_file`, and a partner is laid without the stamp.
ghost use Rattle.std.specs.Prelude.{◌≡◌, ◌*◌, ◌≤◌, length, IfSome};
ghost use mathlib.Core.List.{flat_map, Memᴰ};
ghost use Rattle.book.specs.Book.{book_of};
ghost use Rattle.message.specs.Bytes.{partner_bytes};
ghost use Rattle.reports.specs.FileRows.{partner_numbers, partners_of, file_text};
ghost use Rattle.partners.specs.PartnersInner.{partner_if};
ghost use Rattle.quarters.specs.QuartersInner.{longest_month};
ghost use Rattle.filing.specs.LayingInner.{given, Sized, Filed};

use book::Section;
use emitter::measure::Measure;
use emitter::parts::{emit_file_end, emit_file_head};
use emitter::sink::Sink;
use emitter::write::Write;
use emitter::{Stamp, Title};
use partners::register::next_partner;
use partners::rows::fill_partner;
use series::Role;
use series::sums::Delivered;
use writer::FileRow;

// Fills a partner's rows, and lays them if it has a series. The answer is the number of partners laid: 1, or 0.
pub fn emit_partner<S: Sink>(
    sink: &mut S,
    delivered: &Delivered,
    role: Role,
    partner: u64,
    rows: &mut [FileRow],
) -> Option<u64>
    requires { (4 * longest_month ≤ length rows.old) × Memᴰ partner (partner_numbers (book_of delivered.now.book.now) role.kind role.receiver) }
    ensures laid { S.lays sink.old (flat_map (partner_bytes role.kind) (partner_if (book_of delivered.now.book.now) role.kind role.receiver partner)) (given result) sink.new }
    ensures count { IfSome result (λ n. (n ≡ length (partner_if (book_of delivered.now.book.now) role.kind role.receiver partner)) × (n ≤ 1)) }
{
    let end = fill_partner(delivered, role, partner, rows);
    let title = Title {
        kind: role.kind,
        receiver: role.receiver,
        year: delivered.c.calendar.year,
        month: delivered.c.calendar.month,
    };
    writer::writing::emit_partners(sink, title, &rows[..end])?;
    Some(u64::from(0 < end))
}

// All partners of a receiver, by rising number; how many they are.
pub fn emit_partners<S: Sink>(
    sink: &mut S,
    delivered: &Delivered,
    role: Role,
    rows: &mut [FileRow],
) -> Option<u64>
    requires { 4 * longest_month ≤ length rows.old }
    ensures laid { S.lays sink.old (flat_map (partner_bytes role.kind) (partners_of (book_of delivered.now.book.now) role.kind role.receiver)) (given result) sink.new }
    ensures count { IfSome result (λ n. n ≡ length (partners_of (book_of delivered.now.book.now) role.kind role.receiver)) }
{
    let register = delivered.register;
    let mut count = 0;
    let mut next = next_partner(register, role, 0);
    // Each is sought anew in the register, from the number behind the last: what this goes over is no list or range.
    while let Some(partner) = next {
        count += emit_partner(sink, delivered, role, partner, rows)?;
        next = next_partner(register, role, partner + 1);
    }
    Some(count)
}

// The file, the number of its partners being known.
fn emit_file<S: Sink>(
    sink: &mut S,
    delivered: &Delivered,
    role: Role,
    stamp: Stamp,
    partners: u64,
    rows: &mut [FileRow],
) -> Option<()>
    requires { (4 * longest_month ≤ length rows.old) × (partners ≡ length (partners_of (book_of delivered.now.book.now) role.kind role.receiver)) }
    ensures { S.lays sink.old (file_text (book_of delivered.now.book.now) role.kind role.receiver stamp.entry.id.now stamp.entry.moment.now) result sink.new }
{
    emit_file_head(sink, role.kind, role.receiver, stamp, partners)?;
    emit_partners(sink, delivered, role, rows)?;
    emit_file_end(sink, role.kind)
}

// Measures a receiver's file: its bytes, where there is room for them, and how many partners it has. The partners come first: only lengths count here.
pub fn measure_file(
    room: usize,
    delivered: &Delivered,
    role: Role,
    stamp: Stamp,
    rows: &mut [FileRow],
) -> Option<(usize, u64)>
    requires { 4 * longest_month ≤ length rows.old }
    ensures { Sized room (file_text (book_of delivered.now.book.now) role.kind role.receiver stamp.entry.id.now stamp.entry.moment.now) (length (partners_of (book_of delivered.now.book.now) role.kind role.receiver)) result }
{
    let mut measure = Measure::new(room);
    let partners = emit_partners(&mut measure, delivered, role, rows)?;
    emit_file_head(&mut measure, role.kind, role.receiver, stamp, partners)?;
    emit_file_end(&mut measure, role.kind)?;
    Some((measure.laid, partners))
}

// Writes it over the first places of a buffer that has room for it.
pub fn write_measured(
    file: &mut [u8],
    delivered: &Delivered,
    role: Role,
    stamp: Stamp,
    partners: u64,
    rows: &mut [FileRow],
)
    requires { (4 * longest_month ≤ length rows.old) × (partners ≡ length (partners_of (book_of delivered.now.book.now) role.kind role.receiver)) }
    ensures { Filed (file_text (book_of delivered.now.book.now) role.kind role.receiver stamp.entry.id.now stamp.entry.moment.now) file.old file.new }
{
    let mut write = Write::new(file);
    let _ = emit_file(&mut write, delivered, role, stamp, partners, rows);
}
