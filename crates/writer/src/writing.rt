// Writing a file from rows.
ghost use Rattle.std.specs.Prelude.{◌≡◌, true, ◌&&◌, map, ◌≤◌, length};
ghost use mathlib.Core.List.{flat_map};
ghost use Rattle.moments.specs.Ids.{is_transaction_id};
ghost use Rattle.message.specs.Valid.{is_moment, IsPeriod};
ghost use Rattle.message.specs.Bytes.{observation_bytes, series_bytes, partner_bytes};
ghost use Rattle.message.specs.Messages.{message_bytes};
ghost use Rattle.kinds.specs.Numbers.{kind_number};
ghost use Rattle.writer.specs.Rows.{is_rows};
ghost use Rattle.writer.specs.RowsInner.{row_in};
ghost use Rattle.writer.specs.WriteCalls.{WriteCalled};
ghost use Rattle.writer.specs.ContentsInner.{observations_in, series_at, series_in, partner_at, partners_in, message_by};

use crate::FileRow;
use crate::judging::judge_rows;
use crate::runs::{count_partners, count_series, split_partner, split_series};
use emitter::measure::Measure;
use emitter::parts::{
    emit_file_end, emit_file_head, emit_observation, emit_partner_end, emit_partner_head,
    emit_series_end, emit_series_head,
};
use emitter::sink::Sink;
use emitter::write::Write;
use emitter::{SeriesTitle, Stamp, Title};
use kinds::Kind;
use refusals::Refused;

// The observations of rows.
fn emit_observations<S: Sink>(sink: &mut S, rows: &[FileRow]) -> Option<()>
    ensures { S.lays sink.old (flat_map observation_bytes (observations_in rows.now)) result sink.new }
{
    for row in rows {
        emit_observation(sink, row[3], row[4])?;
    }
    Some(())
}

// The series of rows, at least one, of the same directions.
fn emit_series<S: Sink>(sink: &mut S, title: SeriesTitle, rows: &[FileRow]) -> Option<()>
    requires { 1 ≤ length rows.now }
    ensures { S.lays sink.old (series_bytes title.kind (series_at (title.year, title.month) rows.now)) result sink.new }
{
    let supply = rows[0][1];
    let delivery = rows[0][2];
    emit_series_head(sink, title, supply, delivery, rows.len() as u64)?;
    emit_observations(sink, rows)?;
    emit_series_end(sink)
}

// The series of rows of one partner.
// Not a `for` over `chunk_by`: in a generic function the check's own fact of that loop doesn't type, neither of a closure nor of a function's name.
// Nor one function with `emit_partners`: its contract would have to take the runs, their bytes and their fact for both.
fn emit_series_list<S: Sink>(sink: &mut S, title: SeriesTitle, rows: &[FileRow]) -> Option<()>
    ensures { S.lays sink.old (flat_map (series_bytes title.kind) (series_in (title.year, title.month) rows.now)) result sink.new }
{
    let mut rest = rows;
    while let Some((series, behind)) = split_series(rest) {
        emit_series(sink, title, series)?;
        rest = behind;
    }
    Some(())
}

// The partner of rows, at least one.
fn emit_partner<S: Sink>(sink: &mut S, title: SeriesTitle, rows: &[FileRow]) -> Option<()>
    requires { 1 ≤ length rows.now }
    ensures { S.lays sink.old (partner_bytes title.kind (partner_at (title.year, title.month) rows.now)) result sink.new }
{
    let number = rows[0][0];
    let supply = rows[0][1];
    let count = count_series(rows) as u64;
    emit_partner_head(sink, title.kind, number, supply, count)?;
    emit_series_list(sink, title, rows)?;
    emit_partner_end(sink, title.kind)
}

// The partners of rows. A `while`, as in `emit_series_list`.
pub fn emit_partners<S: Sink>(sink: &mut S, title: Title, rows: &[FileRow]) -> Option<()>
    requires { 1 ≤ length rows.now → IsPeriod title.year title.month }
    ensures { S.lays sink.old (flat_map (partner_bytes title.kind) (partners_in (title.year, title.month) rows.now)) result sink.new }
{
    let Title {
        kind,
        year,
        month,
        ..
    } = title;
    let mut rest = rows;
    while let Some((partner, behind)) = split_partner(rest) {
        emit_partner(sink, SeriesTitle { kind, year, month }, partner)?;
        rest = behind;
    }
    Some(())
}

// The file of rows.
fn emit_file<S: Sink>(sink: &mut S, title: Title, stamp: Stamp, rows: &[FileRow]) -> Option<()>
    requires { 1 ≤ length rows.now → IsPeriod title.year title.month }
    ensures { S.lays sink.old (message_bytes (message_by title stamp.entry.id.now stamp.entry.moment.now rows.now)) result sink.new }
{
    let count = count_partners(rows) as u64;
    emit_file_head(sink, title.kind, title.receiver, stamp, count)?;
    emit_partners(sink, title, rows)?;
    emit_file_end(sink, title.kind)
}

// Whether ID and moment are in form.
pub fn in_form(id: &[u8], moment: &[u8]) -> bool
    ensures { result ≡ (is_transaction_id id.now && is_moment moment.now) }
{
    moments::ids::transaction_id(id) && moments::read_moment(moment).is_some()
}

// Writes the file of rows, where it has room: measured first, then written.
fn write_file(
    title: Title,
    stamp: Stamp,
    numbers: &[u64],
    file: &mut [u8],
) -> Result<usize, Refused>
    requires { (is_rows title.kind title.receiver title.year title.month numbers.now ≡ true) × ((is_transaction_id stamp.id.now && is_moment stamp.moment.now) ≡ true) }
    ensures { WriteCalled (kind_number title.kind) title.receiver title.year title.month numbers.now stamp.entry.id.now stamp.entry.moment.now file.old file.new result }
{
    let (rows, _) = numbers.as_chunks::<6>();
    let mut measure = Measure::new(file.len());
    emit_file(&mut measure, title, stamp, rows).ok_or(Refused::Short(1))?;
    let mut write = Write::new(file);
    let _ = emit_file(&mut write, title, stamp, rows);
    Ok(measure.laid)
}

// Writes the file of a kind from rows.
fn write_kind(
    title: Title,
    stamp: Stamp,
    numbers: &[u64],
    file: &mut [u8],
) -> Result<usize, Refused>
    ensures { WriteCalled (kind_number title.kind) title.receiver title.year title.month numbers.now stamp.entry.id.now stamp.entry.moment.now file.old file.new result }
{
    if !judge_rows(title.kind, title.receiver, title.year, title.month, numbers) {
        return Err(Refused::NoFile);
    }
    if !in_form(stamp.id, stamp.moment) {
        return Err(Refused::Malformed);
    }
    write_file(title, stamp, numbers, file)
}

// Writes a file from rows: kind 1 to 3, receiver, year, month, six numbers a row, ID and moment.
// Its parameters are those of the C call (include/toe.h); `kind` is a number, as C gives it.
pub fn write(
    kind: u8,
    receiver: u64,
    year: u64,
    month: u64,
    rows: &[u64],
    id: &[u8],
    moment: &[u8],
    file: &mut [u8],
) -> Result<usize, Refused>
    ensures { WriteCalled kind receiver year month rows.now id.now moment.now file.old file.new result }
{
    let title = Title {
        kind: Kind::try_from(u64::from(kind))?,
        receiver,
        year,
        month,
    };
    write_kind(title, Stamp { id, moment }, rows, file)
}
