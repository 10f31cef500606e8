// Passages: the parts of a file that hold no list. Each goes on from where the cursor stands, and is read as its form says.
// Where one isn't there, the cursor stays: a passage of several parts is read by a copy of it, which is stored at the end. (One copy for all its parts: `watts`
// and `position_and_watts` make none, and who calls them lends his own.)
#![tactic(auto)]

ghost use Rattle.std.specs.Prelude.{[], ◌∷◌, ◌≡◌, ◌≤◌, true, option_map, IfSome, IfNone, take, drop};
ghost use Rattle.formats.specs.Words.{words_parse};
ghost use Rattle.formats.specs.Name.{name_byte, name_parse};
ghost use Rattle.formats.specs.Combine.{strip};
ghost use Rattle.formats.specs.Exactly.{exactly_parse};
ghost use Rattle.cursor.specs.ReadsInner.{Reads};
ghost use Rattle.message.specs.Valid.{is_moment};
ghost use Rattle.message.specs.Reading.{quantity_parse, observation_parse, period_parse, behind_month, position_parse, month_parse};
ghost use Rattle.passages.specs.ViewsInner.{bit, observation_of, numbers_of, year_and_month, month_in, any_month_parse};

use calendar::dates::Month;
use cursor::Cursor;

// Watts, written as kilowatts with three decimals.
#[tactic(auto, using(crate::proofs::WordLaws::whole_few, crate::proofs::WordLaws::part_few), unfolding(message::specs::Reading::quantity_parse, formats::specs::Exactly::fixed_parse, formats::specs::Combine::map_parse, formats::specs::Combine::seq_parse))]
fn watts(c: &mut Cursor) -> Option<u64>
    ensures { Reads quantity_parse c.old c.new result }
{
    let whole = c.number(46, 999999999)?;
    let part = c.fixed(3)?;
    Some(whole * 1000 + part)
}

// The same, or the cursor stays.
pub fn quantity(c: &mut Cursor) -> Option<u64>
    ensures reads { Reads quantity_parse c.old c.new result }
    ensures stays { IfNone result (c.new ≡ c.old) }
{
    let mut d = *c;
    let w = watts(&mut d)?;
    *c = d;
    Some(w)
}

// An observation's position in its month, and its watts.
#[derive(Clone, Copy, Debug, PartialEq, Eq)]
pub struct ReadObservation {
    pub position: u64,
    pub watts: u64,
}

// An observation of any position and watts.
#[tactic(auto, unfolding(text::specs::Ascii::bytes, message::specs::Bytes::opening, message::specs::Bytes::ending, message::specs::Bytes::closing, message::specs::Reading::position_parse, message::specs::Reading::plain_parse, formats::specs::Combine::pre_parse, formats::specs::Combine::post_parse, formats::specs::Combine::seq_parse))]
fn position_and_watts(c: &mut Cursor) -> Option<ReadObservation>
    ensures { Reads position_parse c.old c.new (option_map numbers_of result) }
{
    c.tag(b"<Observation><Position>")?;
    let position = c.number(60, u64::MAX)?;
    c.tag(b"/Position><Quantity>")?;
    let watts = watts(c)?;
    c.tag(b"</Quantity></Observation>")?;
    Some(ReadObservation { position, watts })
}

// The same, or the cursor stays.
pub fn any_observation(c: &mut Cursor) -> Option<ReadObservation>
    ensures reads { Reads position_parse c.old c.new (option_map numbers_of result) }
    ensures stays { IfNone result (c.new ≡ c.old) }
{
    let mut d = *c;
    let o = position_and_watts(&mut d)?;
    *c = d;
    Some(o)
}

// An observation of a month with so many positions.
#[tactic(auto, unfolding(message::specs::Reading::observation_parse, formats::specs::Combine::map_parse, formats::specs::Combine::only_parse))]
pub fn observation(c: &mut Cursor, last: u64) -> Option<ReadObservation>
    ensures reads { Reads (observation_parse last) c.old c.new (option_map observation_of result) }
    ensures stays { IfNone result (c.new ≡ c.old) }
{
    let mut d = *c;
    let o = position_and_watts(&mut d)?;
    if last < o.position {
        return None;
    }
    if o.watts == 0 {
        return None;
    }
    *c = d;
    Some(o)
}

// The month that a year and a number of a month make, from 2018 to 2099.
fn month_of(year: u64, month: u64) -> Option<Month>
    ensures month { option_map year_and_month result ≡ month_in (year, month) }
    ensures early { IfSome result (λ m. m.year ≤ 2099) }
{
    if !message::is_period(year, month) {
        return None;
    }
    Some(Month { year, month })
}

// The year and the month of a period's first moment, of any year and month.
#[tactic(auto, unfolding(text::specs::Ascii::bytes, message::specs::Bytes::opening, formats::specs::Exactly::fixed_parse, formats::specs::Combine::pre_parse, formats::specs::Combine::post_parse, formats::specs::Combine::seq_parse))]
pub fn any_month(c: &mut Cursor) -> Option<(u64, u64)>
    ensures reads { Reads any_month_parse c.old c.new result }
    ensures stays { IfNone result (c.new ≡ c.old) }
{
    let mut d = *c;
    d.tag(b"<PeriodStart>")?;
    let year = d.fixed(4)?;
    d.tag(b"-")?;
    let month = d.fixed(2)?;
    *c = d;
    Some((year, month))
}

// The same of a month that a file may have.
#[tactic(auto, unfolding(message::specs::Reading::month_parse, formats::specs::Combine::only_parse))]
pub fn month(c: &mut Cursor) -> Option<Month>
    ensures reads { Reads month_parse c.old c.new (option_map year_and_month result) }
    ensures early { IfSome result (λ m. m.year ≤ 2099) }
    ensures stays { IfNone result (c.new ≡ c.old) }
{
    let mut d = *c;
    let (year, month) = any_month(&mut d)?;
    let m = month_of(year, month)?;
    *c = d;
    Some(m)
}

// What stands behind the year and the month of a period: the rest of its first moment, and its end.
fn behind_month(c: &mut Cursor, month: Month) -> Option<()>
    requires { month.year ≤ 9998 }
    ensures { Reads (strip (behind_month (year_and_month month))) c.old c.new result }
{
    let start = message::moment_text(moments::period_start(month));
    let end = message::moment_text(moments::period_end(month));
    c.tag(&start[7..])?;
    c.tag(b"</PeriodStart><PeriodEnd>")?;
    c.tag(&end)?;
    c.tag(b"</PeriodEnd><PeriodResolution>PT15M</PeriodResolution>")
}

// The period of a month.
#[tactic(auto, unfolding(message::specs::Reading::period_parse, formats::specs::Combine::map_parse, formats::specs::Combine::post_parse))]
pub fn period(c: &mut Cursor) -> Option<Month>
    ensures reads { Reads period_parse c.old c.new (option_map year_and_month result) }
    ensures stays { IfNone result (c.new ≡ c.old) }
{
    let mut d = *c;
    let month = month(&mut d)?;
    behind_month(&mut d, month)?;
    *c = d;
    Some(month)
}

// A transaction ID, and the byte that ends it.
#[tactic(auto, using(crate::proofs::WordLaws::behind_name, crate::proofs::WordLaws::a_name))]
pub fn id<'a>(c: &mut Cursor<'a>) -> Option<&'a [u8]>
    ensures reads { Reads (name_parse name_byte 1 36 60) c.old c.new (option_map (λ s. s.now) result) }
    ensures stays { IfNone result (c.new ≡ c.old) }
{
    let text = c.text;
    let at = c.at;
    c.name(1, 36, b'<')?;
    Some(&text[at..c.at - 1])
}

// Whether the second of two words stands at the cursor; none where neither does.
#[tactic(auto, using(crate::proofs::WordLaws::two_told))]
pub fn second_word(c: &mut Cursor, first: &[u8], second: &[u8]) -> Option<bool>
    ensures reads { Reads (words_parse (first.now ∷ second.now ∷ [])) c.old c.new (option_map bit result) }
    ensures stays { IfNone result (c.new ≡ c.old) }
{
    let n = c.word(first, second)?;
    Some(n == 1)
}

// The 29 bytes of a moment.
pub fn moment(c: &mut Cursor) -> Option<()>
    ensures reads { Reads (exactly_parse 29 is_moment) c.old c.new (option_map (λ u. take 29 (drop c.old.at c.old.text.now)) result) }
    ensures stays { IfNone result (c.new ≡ c.old) }
{
    c.at = message::moment_at(c.text, c.at)?;
    Some(())
}
