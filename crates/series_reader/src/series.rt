// The series of a partner.
ghost use Rattle.std.specs.Prelude.{◌≡◌, ◌+◌, ◌*◌, option_map, leb, IfNone};
ghost use Rattle.formats.specs.Words.{words_parse};
ghost use Rattle.cursor.specs.ReadsInner.{Reads};
ghost use Rattle.message.specs.Bytes.{supplies};
ghost use Rattle.message.specs.Months.{follows};
ghost use Rattle.message.specs.Reading.{own_series_parse, shared_series_parse, series_list_parse};
ghost use Rattle.passages.specs.ViewsInner.{bit, year_and_month};
ghost use Rattle.series_reader.specs.RowsInner.{Filled, rows_of_series, rows_of_all};
ghost use Rattle.series_reader.specs.ViewsInner.{series_outline, outline_of, series_parse, next_series, low_of, month_seen, last_month};

use crate::rows::Rows;
use calendar::dates::Month;
use cursor::Cursor;

// A time series: its directions and its month.
#[derive(Clone, Copy, Debug, PartialEq, Eq)]
pub struct SeriesOutline {
    pub injection: bool,
    pub down: bool,
    pub month: Month,
}

impl SeriesOutline {
    // Off-take before injection, up before down. (A number: `rises` compares partners' numbers too, and the form's key is this number.)
    fn place(self) -> u64
        ensures { result ≡ bit self.injection * 2 + bit self.down }
    {
        u64::from(self.injection) * 2 + u64::from(self.down)
    }
}

// A supply direction.
#[tactic(auto, unfolding(text::specs::Ascii::bytes, message::specs::Bytes::supplies))]
pub fn supply(c: &mut Cursor) -> Option<bool>
    ensures reads { Reads (words_parse supplies) c.old c.new (option_map bit result) }
    ensures stays { IfNone result (c.new ≡ c.old) }
{
    passages::second_word(c, b"Off-take", b"Injection")
}

// A series with its own supply direction (TOE01, TOE02).
#[tactic(auto, unfolding(text::specs::Ascii::bytes, message::specs::Bytes::opening, message::specs::Bytes::ending, message::specs::Bytes::closing, message::specs::Reading::own_series_parse, formats::specs::Combine::map_parse, formats::specs::Combine::pre_parse, formats::specs::Combine::post_parse, formats::specs::Combine::seq_parse))]
fn own_series(c: &mut Cursor, rows: &mut Rows, partner: u64) -> Option<SeriesOutline>
    ensures filled { Filled own_series_parse series_outline (rows_of_series partner) c.old c.new rows.old rows.new (option_map outline_of result) }
    ensures stays { IfNone result (c.new ≡ c.old) }
{
    let mut d = *c;
    d.tag(b"<ToETimeSeries><SupplyDirection>")?;
    let injection = supply(&mut d)?;
    d.tag(b"</SupplyDirection>")?;
    let v = crate::elements::volume(&mut d, rows, partner, u64::from(injection))?;
    d.tag(b"</ToETimeSeries>")?;
    *c = d;
    Some(SeriesOutline {
        injection,
        down: v.down,
        month: v.month,
    })
}

// A series with the supply direction of its access point (TOE03).
#[tactic(auto, unfolding(text::specs::Ascii::bytes, message::specs::Bytes::opening, message::specs::Bytes::ending, message::specs::Bytes::closing, message::specs::Reading::shared_series_parse, formats::specs::Combine::map_parse, formats::specs::Combine::pre_parse, formats::specs::Combine::post_parse, formats::specs::Combine::seq_parse))]
fn shared_series(
    c: &mut Cursor,
    rows: &mut Rows,
    partner: u64,
    injection: bool,
) -> Option<SeriesOutline>
    ensures filled { Filled (shared_series_parse (bit injection)) series_outline (rows_of_series partner) c.old c.new rows.old rows.new (option_map outline_of result) }
    ensures stays { IfNone result (c.new ≡ c.old) }
{
    let mut d = *c;
    d.tag(b"<ToETimeSeries>")?;
    let v = crate::elements::volume(&mut d, rows, partner, u64::from(injection))?;
    d.tag(b"</ToETimeSeries>")?;
    *c = d;
    Some(SeriesOutline {
        injection,
        down: v.down,
        month: v.month,
    })
}

// A series of a partner, which may have one supply direction for all of them.
// (Two forms in the definitions, `own_series_parse` and `shared_series_parse`. One function, the tag before a match on `shared`, was tried:
// the search closed none of its five ends, each of which is of both forms.)
pub fn series(
    c: &mut Cursor,
    rows: &mut Rows,
    partner: u64,
    shared: Option<bool>,
) -> Option<SeriesOutline>
    ensures filled { Filled (series_parse (option_map bit shared)) series_outline (rows_of_series partner) c.old c.new rows.old rows.new (option_map outline_of result) }
    ensures stays { IfNone result (c.new ≡ c.old) }
{
    match shared {
        Some(injection) => shared_series(c, rows, partner, injection),
        None => own_series(c, rows, partner),
    }
}

// Whether a key may stand behind the one before it.
pub fn rises(behind: Option<u64>, key: u64) -> bool
    ensures { result ≡ leb (low_of behind) key }
{
    behind.is_none_or(|k| k < key)
}

// Whether a month may stand behind the one that was seen, of which year 0 is none.
#[tactic(auto, unfolding(message::specs::Months::follows))]
fn follows(seen: (u64, u64), month: Month) -> bool
    ensures { result ≡ follows seen (year_and_month month) }
{
    seen.0 == 0 || (month.year == seen.0 && month.month == seen.1)
}

// The next series of a partner: behind a place, and of the month that was seen.
fn next_series(
    c: &mut Cursor,
    rows: &mut Rows,
    partner: u64,
    shared: Option<bool>,
    behind: Option<u64>,
    seen: (u64, u64),
) -> Option<SeriesOutline>
    ensures { Filled (next_series (option_map bit shared) (low_of behind, seen)) series_outline (rows_of_series partner) c.old c.new rows.old rows.new (option_map outline_of result) }
{
    let s = series(c, rows, partner, shared)?;
    if !follows(seen, s.month) {
        return None;
    }
    if !rises(behind, s.place()) {
        return None;
    }
    Some(s)
}

// A month that was seen, if any: a name for what would be an option in an option.
#[derive(Clone, Copy, Debug, PartialEq, Eq)]
pub struct Seen {
    pub month: Option<Month>,
}

impl Seen {
    // Its year and its month, 0 and 0 where none was seen.
    pub fn numbers(self) -> (u64, u64)
        ensures { result ≡ month_seen self.month }
    {
        match self.month {
            Some(m) => (m.year, m.month),
            None => (0, 0),
        }
    }
}

// So many series of a partner, behind the month that was seen; the month that was seen last.
pub fn series_list(
    c: &mut Cursor,
    rows: &mut Rows,
    partner: u64,
    shared: Option<bool>,
    count: u64,
    before: Seen,
) -> Option<Seen>
    ensures filled { Filled (series_list_parse (series_parse (option_map bit shared)) count (month_seen before.month)) (last_month (month_seen before.month)) (rows_of_all partner) c.old c.new rows.old rows.new (option_map (λ s. month_seen s.month) result) }
    ensures stays { IfNone result (c.new ≡ c.old) }
{
    let mut d = *c;
    let mut behind = None;
    let mut seen = before;
    for _i in 0..count {
        let s = next_series(&mut d, rows, partner, shared, behind, seen.numbers())?;
        behind = Some(s.place());
        seen = Seen {
            month: Some(s.month),
        };
    }
    *c = d;
    Some(seen)
}

// The same behind any two numbers for the month that was seen, of which year 0 is none.
pub fn series_behind(
    c: &mut Cursor,
    rows: &mut Rows,
    partner: u64,
    shared: Option<bool>,
    count: u64,
    before: (u64, u64),
) -> Option<(u64, u64)>
    ensures filled { Filled (series_list_parse (series_parse (option_map bit shared)) count before) (last_month before) (rows_of_all partner) c.old c.new rows.old rows.new result }
    ensures stays { IfNone result (c.new ≡ c.old) }
{
    let mut d = *c;
    let mut behind = None;
    let mut seen = before;
    for _i in 0..count {
        let s = next_series(&mut d, rows, partner, shared, behind, seen)?;
        behind = Some(s.place());
        seen = (s.month.year, s.month.month);
    }
    *c = d;
    Some(seen)
}
