// The parts of a file, laid behind each other.
ghost use Rattle.std.specs.Prelude.{◌≡◌, ◌∷◌, [], ◌++◌};
ghost use Rattle.text.specs.Ascii.{bytes};
ghost use Rattle.text.specs.Decimal.{fixed, plain};
ghost use Rattle.formats.specs.Words.{word_at};
ghost use Rattle.message.specs.Bytes.{root, counter, group, partner, digits};
ghost use Rattle.message.specs.Bytes.{quantity_bytes, observation_bytes, period_bytes, supply_bytes, in_series, with_partner};
ghost use Rattle.message.specs.Reading.{observed};
ghost use Rattle.emitter.specs.PartsInner.{open_tag, close_tag, element_of, delivery_bytes, head_bytes, series_head, series_end, partner_head, partner_end, origin_bytes, file_head, file_end};

use crate::sink::{Sink, lay_plain};
use crate::{SeriesTitle, Stamp};
use calendar::dates::Month;
use kinds::Kind;

// ---- names

// A file's element, by its kind. Four tables of words, as the form's definitions are: each place takes one or two of them, so one struct of all four would be no plainer.
fn root(kind: Kind) -> &'static [u8]
    ensures { result.now ≡ bytes (root kind) }
{
    match kind {
        Kind::Toe01 => b"AggregatedToEVolumesForFSP",
        Kind::Toe02 => b"AggregatedToEVolumesForSupplier",
        Kind::Toe03 => b"IndividualToEVolumesForSupplier",
    }
}

// The number of partners.
fn counter(kind: Kind) -> &'static [u8]
    ensures { result.now ≡ bytes (counter kind) }
{
    match kind {
        Kind::Toe01 => b"SupplierCounter",
        Kind::Toe02 => b"FSPCounter",
        Kind::Toe03 => b"SDPSupplyCounter",
    }
}

// A partner.
fn group(kind: Kind) -> &'static [u8]
    ensures { result.now ≡ bytes (group kind) }
{
    match kind {
        Kind::Toe01 => b"SupplierSeries",
        Kind::Toe02 => b"FspSeries",
        Kind::Toe03 => b"SDPSupplySeries",
    }
}

// A partner's number.
fn partner(kind: Kind) -> &'static [u8]
    ensures { result.now ≡ bytes (partner kind) }
{
    match kind {
        Kind::Toe01 => b"SupplierEnterpriseNumber",
        Kind::Toe02 => b"FSPEnterpriseNumber",
        Kind::Toe03 => b"SDPSupply",
    }
}

// How many digits it has.
#[tactic(auto, unfolding(message::specs::Bytes::digits))]
pub fn digits(kind: Kind) -> usize
    ensures { result ≡ digits kind }
{
    match kind {
        Kind::Toe01 | Kind::Toe02 => 10,
        Kind::Toe03 => 18,
    }
}

// One of two words, by 0 or 1; an empty word by another number.
// So a direction is a number here and in all below that lays one, and no enum: it is one of a row's six, which C lends, and a caller's row may hold another.
fn word(which: u64, first: &'static [u8], second: &'static [u8]) -> &'static [u8]
    ensures { result.now ≡ word_at (first.now ∷ second.now ∷ []) which }
{
    match which {
        0 => first,
        1 => second,
        _ => b"",
    }
}

// <name>. With `close` two of one shape: one function of both would take the sign at each of its calls.
#[inline(always)]
fn open<S: Sink>(sink: &mut S, name: &[u8]) -> Option<()>
    ensures { S.lays sink.old (open_tag name.now) result sink.new }
{
    sink.lay(b"<")?;
    sink.lay(name)?;
    sink.lay(b">")
}

// </name>
#[inline(always)]
fn close<S: Sink>(sink: &mut S, name: &[u8]) -> Option<()>
    ensures { S.lays sink.old (close_tag name.now) result sink.new }
{
    sink.lay(b"</")?;
    sink.lay(name)?;
    sink.lay(b">")
}

// An element of bytes.
#[inline(always)]
fn emit_element<S: Sink>(sink: &mut S, name: &[u8], content: &[u8]) -> Option<()>
    ensures { S.lays sink.old (element_of name.now content.now) result sink.new }
{
    open(sink, name)?;
    sink.lay(content)?;
    close(sink, name)
}

// An element of a number's last n digits.
// A closure for what stands between the tags would be no plainer: its clause would speak of three states, and this is one call apart from the above.
#[inline(always)]
fn emit_fixed<S: Sink>(sink: &mut S, name: &[u8], n: usize, v: u64) -> Option<()>
    ensures { S.lays sink.old (element_of name.now (fixed n v)) result sink.new }
{
    open(sink, name)?;
    sink.lay_fixed(n, v)?;
    close(sink, name)
}

// An element of a number without leading zeros.
#[inline(always)]
fn emit_plain<S: Sink>(sink: &mut S, name: &[u8], v: u64) -> Option<()>
    ensures { S.lays sink.old (element_of name.now (plain v)) result sink.new }
{
    emit_fixed(sink, name, text::width(v), v)
}

// ---- a time series

// Watts as kilowatts with three decimals.
fn emit_quantity<S: Sink>(sink: &mut S, watts: u64) -> Option<()>
    ensures { S.lays sink.old (quantity_bytes watts) result sink.new }
{
    lay_plain(sink, watts / 1000)?;
    sink.lay(b".")?;
    sink.lay_fixed(3, watts % 1000)
}

// An observation.
pub fn emit_observation<S: Sink>(sink: &mut S, position: u64, watts: u64) -> Option<()>
    ensures { S.lays sink.old (observation_bytes (observed (position, watts))) result sink.new }
{
    sink.lay(b"<Observation><Position>")?;
    lay_plain(sink, position)?;
    sink.lay(b"</Position><Quantity>")?;
    emit_quantity(sink, watts)?;
    sink.lay(b"</Quantity></Observation>")
}

// A supply direction. It and the delivery direction are one call each, of another name and two other words: nothing is left to share.
fn emit_supply<S: Sink>(sink: &mut S, supply: u64) -> Option<()>
    ensures { S.lays sink.old (supply_bytes supply) result sink.new }
{
    emit_element(
        sink,
        b"SupplyDirection",
        word(supply, b"Off-take", b"Injection"),
    )
}

// A delivery direction.
fn emit_delivery<S: Sink>(sink: &mut S, delivery: u64) -> Option<()>
    ensures { S.lays sink.old (delivery_bytes delivery) result sink.new }
{
    emit_element(
        sink,
        b"DeliveryDirection",
        word(delivery, b"DeliveryUp", b"DeliveryDown"),
    )
}

// The period of a month.
fn emit_period<S: Sink>(sink: &mut S, title: SeriesTitle) -> Option<()>
    ensures { S.lays sink.old (period_bytes title.year title.month) result sink.new }
{
    let SeriesTitle { year, month, .. } = title;
    let period = Month { year, month };
    let start = message::moment_text(moments::period_start(period));
    let end = message::moment_text(moments::period_end(period));
    emit_element(sink, b"PeriodStart", &start)?;
    emit_element(sink, b"PeriodEnd", &end)?;
    sink.lay(b"<PeriodResolution>PT15M</PeriodResolution>")
}

// A time series from its delivery direction up to its observations, of which there are n.
// Each part of a file takes what it needs: some the title, others its kind alone, and a direction or a count only where it may stand in that part.
fn emit_head<S: Sink>(sink: &mut S, title: SeriesTitle, delivery: u64, n: u64) -> Option<()>
    ensures { S.lays sink.old (head_bytes delivery n title.year title.month) result sink.new }
{
    emit_delivery(sink, delivery)?;
    sink.lay(b"<UnitType>KWT</UnitType>")?;
    emit_plain(sink, b"ObservationCounter", n)?;
    sink.lay(b"<TimeSeriesPeriod>")?;
    emit_period(sink, title)
}

// The supply direction, where a time series has it. It and `emit_partner_supply` differ in the kinds that lay one: which kinds is all that each says.
fn emit_series_supply<S: Sink>(sink: &mut S, kind: Kind, supply: u64) -> Option<()>
    ensures { S.lays sink.old (in_series kind (supply_bytes supply)) result sink.new }
{
    match kind {
        Kind::Toe01 | Kind::Toe02 => emit_supply(sink, supply),
        Kind::Toe03 => Some(()),
    }
}

// A time series up to its observations, of which there are n.
pub fn emit_series_head<S: Sink>(
    sink: &mut S,
    title: SeriesTitle,
    supply: u64,
    delivery: u64,
    n: u64,
) -> Option<()>
    ensures { S.lays sink.old (series_head title.kind supply delivery n title.year title.month) result sink.new }
{
    sink.lay(b"<ToETimeSeries>")?;
    emit_series_supply(sink, title.kind, supply)?;
    emit_head(sink, title, delivery, n)
}

// What stands behind a time series' observations.
#[tactic(auto, unfolding(text::specs::Ascii::bytes, message::specs::Bytes::ending, message::specs::Bytes::closing, crate::specs::PartsInner::series_end))]
pub fn emit_series_end<S: Sink>(sink: &mut S) -> Option<()>
    ensures { S.lays sink.old series_end result sink.new }
{
    sink.lay(b"</TimeSeriesPeriod></ToETimeSeries>")
}

// ---- a partner

// The supply direction, where a partner has it.
fn emit_partner_supply<S: Sink>(sink: &mut S, kind: Kind, supply: u64) -> Option<()>
    ensures { S.lays sink.old (with_partner kind (supply_bytes supply)) result sink.new }
{
    match kind {
        Kind::Toe01 | Kind::Toe02 => Some(()),
        Kind::Toe03 => emit_supply(sink, supply),
    }
}

// A partner up to its series, of which there are n.
pub fn emit_partner_head<S: Sink>(
    sink: &mut S,
    kind: Kind,
    number: u64,
    supply: u64,
    n: u64,
) -> Option<()>
    ensures { S.lays sink.old (partner_head kind number supply n) result sink.new }
{
    open(sink, group(kind))?;
    emit_fixed(sink, partner(kind), digits(kind), number)?;
    emit_partner_supply(sink, kind, supply)?;
    emit_plain(sink, b"DirectionCounter", n)
}

// What stands behind a partner's series. One call, as in `emit_file_end`, of another word.
#[tactic(auto, unfolding(text::specs::Ascii::bytes, message::specs::Bytes::ending, message::specs::Bytes::closing, crate::specs::PartsInner::partner_end))]
pub fn emit_partner_end<S: Sink>(sink: &mut S, kind: Kind) -> Option<()>
    ensures { S.lays sink.old (partner_end kind) result sink.new }
{
    close(sink, group(kind))
}

// ---- a file

// A file up to its receiver.
fn emit_origin<S: Sink>(sink: &mut S, kind: Kind, stamp: Stamp) -> Option<()>
    ensures { S.lays sink.old (origin_bytes kind stamp.entry.id.now stamp.entry.moment.now) result sink.new }
{
    open(sink, root(kind))?;
    emit_element(sink, b"TransactionID", stamp.id)?;
    emit_element(sink, b"MessageCreateDateTime", stamp.moment)
}

// A file up to its partners, of which there are n.
pub fn emit_file_head<S: Sink>(
    sink: &mut S,
    kind: Kind,
    receiver: u64,
    stamp: Stamp,
    n: u64,
) -> Option<()>
    ensures { S.lays sink.old (file_head kind stamp.entry.id.now stamp.entry.moment.now receiver n) result sink.new }
{
    emit_origin(sink, kind, stamp)?;
    emit_fixed(sink, b"ReceiverID", 10, receiver)?;
    emit_plain(sink, counter(kind), n)
}

// What stands behind a file's partners.
#[tactic(auto, unfolding(text::specs::Ascii::bytes, message::specs::Bytes::ending, message::specs::Bytes::closing, crate::specs::PartsInner::file_end))]
pub fn emit_file_end<S: Sink>(sink: &mut S, kind: Kind) -> Option<()>
    ensures { S.lays sink.old (file_end kind) result sink.new }
{
    close(sink, root(kind))
}
