// The partners of a file.
ghost use Rattle.std.specs.Prelude.{◌≡◌, option_map, IfNone};
ghost use Rattle.message.specs.Reading.{partner_parse, partners_parse};
ghost use Rattle.series_reader.specs.RowsInner.{Filled, rows_of_partner};
ghost use Rattle.series_reader.specs.ViewsInner.{low_of, month_seen};
ghost use Rattle.reader.specs.PartnersInner.{company_parse, kept_of_partner, partner_told, next_partner, rows_of_partners, month_behind};

use cursor::Cursor;
use kinds::Kind;
use series_reader::rows::Rows;
use series_reader::series::{Seen, rises, series_list, supply};

// A partner that was read: its number, and the month that was seen last.
#[derive(Clone, Copy, Debug, PartialEq, Eq)]
pub struct ReadPartner {
    pub number: u64,
    pub seen: Seen,
}

// A supplier or an FSP, by its tags: what stands before and behind its number, and at its end.
#[tactic(auto, unfolding(text::specs::Ascii::bytes, message::specs::Bytes::opening, message::specs::Bytes::ending, message::specs::Bytes::closing, crate::specs::PartnersInner::company_parse, message::specs::Reading::counted_parse, message::specs::Reading::plain_parse, formats::specs::Exactly::fixed_parse, formats::specs::Combine::map_parse, formats::specs::Combine::pre_parse, formats::specs::Combine::post_parse, formats::specs::Combine::seq_parse))]
fn company(
    c: &mut Cursor,
    rows: &mut Rows,
    seen: Seen,
    before: &[u8],
    behind: &[u8],
    end: &[u8],
) -> Option<ReadPartner>
    ensures filled { Filled (company_parse before.now behind.now end.now (month_seen seen.month)) (kept_of_partner (month_seen seen.month)) rows_of_partner c.old c.new rows.old rows.new (option_map partner_told result) }
    ensures stays { IfNone result (c.new ≡ c.old) }
{
    let mut d = *c;
    d.tag(before)?;
    let number = d.fixed(10)?;
    d.tag(behind)?;
    let count = d.counter()?;
    d.tag(b"/DirectionCounter>")?;
    let seen = series_list(&mut d, rows, number, None, count, seen)?;
    d.tag(end)?;
    *c = d;
    Some(ReadPartner { number, seen })
}

// An access point.
#[tactic(auto, unfolding(text::specs::Ascii::bytes, message::specs::Bytes::opening, message::specs::Bytes::ending, message::specs::Bytes::closing, message::specs::Bytes::group, message::specs::Bytes::partner, message::specs::Bytes::digits, message::specs::Reading::partner_parse, message::specs::Reading::shared_partner_parse, message::specs::Reading::counted_parse, message::specs::Reading::plain_parse, formats::specs::Exactly::fixed_parse, formats::specs::Combine::map_parse, formats::specs::Combine::pre_parse, formats::specs::Combine::post_parse, formats::specs::Combine::seq_parse))]
fn access(c: &mut Cursor, rows: &mut Rows, seen: Seen) -> Option<ReadPartner>
    ensures filled { Filled (partner_parse Kind.Toe03 (month_seen seen.month)) (kept_of_partner (month_seen seen.month)) rows_of_partner c.old c.new rows.old rows.new (option_map partner_told result) }
    ensures stays { IfNone result (c.new ≡ c.old) }
{
    let mut d = *c;
    d.tag(b"<SDPSupplySeries><SDPSupply>")?;
    let number = d.fixed(18)?;
    d.tag(b"</SDPSupply><SupplyDirection>")?;
    let injection = supply(&mut d)?;
    d.tag(b"</SupplyDirection><DirectionCounter>")?;
    let count = d.counter()?;
    d.tag(b"/DirectionCounter>")?;
    let seen = series_list(&mut d, rows, number, Some(injection), count, seen)?;
    d.tag(b"</SDPSupplySeries>")?;
    *c = d;
    Some(ReadPartner { number, seen })
}

// A partner of a file of a kind: what a file is of stands in its root, so the kind is a value.
fn partner(c: &mut Cursor, rows: &mut Rows, kind: Kind, seen: Seen) -> Option<ReadPartner>
    ensures filled { Filled (partner_parse kind (month_seen seen.month)) (kept_of_partner (month_seen seen.month)) rows_of_partner c.old c.new rows.old rows.new (option_map partner_told result) }
    ensures stays { IfNone result (c.new ≡ c.old) }
{
    match kind {
        Kind::Toe01 => company(
            c,
            rows,
            seen,
            b"<SupplierSeries><SupplierEnterpriseNumber>",
            b"</SupplierEnterpriseNumber><DirectionCounter>",
            b"</SupplierSeries>",
        ),
        Kind::Toe02 => company(
            c,
            rows,
            seen,
            b"<FspSeries><FSPEnterpriseNumber>",
            b"</FSPEnterpriseNumber><DirectionCounter>",
            b"</FspSeries>",
        ),
        Kind::Toe03 => access(c, rows, seen),
    }
}

// The next partner: behind a number, and of the month that was seen.
fn next_partner(
    c: &mut Cursor,
    rows: &mut Rows,
    kind: Kind,
    behind: Option<u64>,
    seen: Seen,
) -> Option<ReadPartner>
    ensures { Filled (next_partner kind (low_of behind, month_seen seen.month)) (kept_of_partner (month_seen seen.month)) rows_of_partner c.old c.new rows.old rows.new (option_map partner_told result) }
{
    let p = partner(c, rows, kind, seen)?;
    if !rises(behind, p.number) {
        return None;
    }
    Some(p)
}

// So many partners of a file; the month that was seen last.
pub fn partners(c: &mut Cursor, rows: &mut Rows, kind: Kind, count: u64) -> Option<Seen>
    ensures filled { Filled (partners_parse kind count) month_behind rows_of_partners c.old c.new rows.old rows.new (option_map (λ s. month_seen s.month) result) }
    ensures stays { IfNone result (c.new ≡ c.old) }
{
    let mut d = *c;
    let mut behind = None;
    let mut seen = Seen { month: None };
    for _i in 0..count {
        let p = next_partner(&mut d, rows, kind, behind, seen)?;
        behind = Some(p.number);
        seen = p.seen;
    }
    *c = d;
    Some(seen)
}
