// A time series, from its observations up.
ghost use Rattle.std.specs.Prelude.{◌≡◌, option_map, suc, IfNone};
ghost use Rattle.formats.specs.Words.{words_parse};
ghost use Rattle.cursor.specs.ReadsInner.{Reads};
ghost use Rattle.message.specs.Bytes.{deliveries};
ghost use Rattle.message.specs.Contents.{position};
ghost use Rattle.message.specs.Reading.{observations_parse, volume_parse, of_volume};
ghost use Rattle.passages.specs.ViewsInner.{bit};
ghost use Rattle.series_reader.specs.RowsInner.{Filled, directions, rows_of_observation, rows_of_observations, rows_of_series};
ghost use Rattle.series_reader.specs.ViewsInner.{volume_told, volume_kept, next_observation};

use crate::rows::{Key, Rows};
use calendar::dates::Month;
use cursor::Cursor;

// An observation of a month behind a position; its row is stored.
fn observation(c: &mut Cursor, rows: &mut Rows, key: Key, last: u64, behind: u64) -> Option<u64>
    ensures { Filled (next_observation last (suc behind)) position (rows_of_observation key.partner (directions key)) c.old c.new rows.old rows.new result }
{
    let o = passages::observation(c, last)?;
    if o.position <= behind {
        return None;
    }
    rows.push(key, o);
    Some(o.position)
}

// So many observations of a month, read by a copy of the cursor: where they aren't there, the cursor stays.
pub fn observations(c: &mut Cursor, rows: &mut Rows, key: Key, last: u64, count: u64) -> Option<()>
    ensures filled { Filled (observations_parse last count) (λ l. tt) (rows_of_observations key.partner (directions key)) c.old c.new rows.old rows.new result }
    ensures stays { IfNone result (c.new ≡ c.old) }
{
    let mut d = *c;
    // (0 is before the first position and is none itself.)
    let mut behind = 0;
    for _i in 0..count {
        behind = observation(&mut d, rows, key, last, behind)?;
    }
    *c = d;
    Some(())
}

// A time series from its delivery direction on. (`volume_parse` has no supply direction, so what it gives has none; `SeriesOutline` has both.)
#[derive(Clone, Copy, Debug, PartialEq, Eq)]
pub struct DeliverySeries {
    pub down: bool,
    pub month: Month,
}

// A delivery direction. (It names its two words as `supply` names its own: one function with a flag for the pair is no plainer.)
#[tactic(auto, unfolding(text::specs::Ascii::bytes, message::specs::Bytes::deliveries))]
fn delivery(c: &mut Cursor) -> Option<bool>
    ensures { Reads (words_parse deliveries) c.old c.new (option_map bit result) }
{
    passages::second_word(c, b"DeliveryUp", b"DeliveryDown")
}

// A time series from its delivery direction on, of any supply direction's number; its rows are stored.
#[tactic(auto, unfolding(text::specs::Ascii::bytes, message::specs::Bytes::opening, message::specs::Bytes::ending, message::specs::Bytes::closing, message::specs::Reading::volume_parse, message::specs::Reading::counted_parse, message::specs::Reading::plain_parse, formats::specs::Combine::map_parse, formats::specs::Combine::pre_parse, formats::specs::Combine::post_parse, formats::specs::Combine::seq_parse))]
pub fn volume(c: &mut Cursor, rows: &mut Rows, partner: u64, supply: u64) -> Option<DeliverySeries>
    ensures filled { Filled volume_parse volume_kept (λ v. rows_of_series partner (of_volume supply v)) c.old c.new rows.old rows.new (option_map volume_told result) }
    ensures stays { IfNone result (c.new ≡ c.old) }
{
    let mut d = *c;
    d.tag(b"<DeliveryDirection>")?;
    let down = delivery(&mut d)?;
    d.tag(b"</DeliveryDirection><UnitType>KWT</UnitType><ObservationCounter>")?;
    let count = d.counter()?;
    d.tag(b"/ObservationCounter><TimeSeriesPeriod>")?;
    let month = passages::period(&mut d)?;
    let last = message::last_position(month.year, month.month);
    let key = Key {
        partner,
        supply,
        delivery: u64::from(down),
    };
    observations(&mut d, rows, key, last, count)?;
    d.tag(b"</TimeSeriesPeriod>")?;
    *c = d;
    Some(DeliverySeries { down, month })
}
