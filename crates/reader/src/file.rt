// A file, from its first byte on.
ghost use Rattle.std.specs.Prelude.{◌≡◌, ◌++◌, option_map};
ghost use Rattle.formats.specs.Combine.{strip};
ghost use Rattle.cursor.specs.ReadsInner.{Reads};
ghost use Rattle.message.specs.Bytes.{opening, ending, closing, root, counter};
ghost use Rattle.message.specs.Reading.{kind_parse, file_parse};
ghost use Rattle.series_reader.specs.RowsInner.{Filled};
ghost use Rattle.reader.specs.FileInner.{kept_of_file, rows_of_file, file_told};

use cursor::Cursor;
use kinds::Kind;
use message::FileFacts;
use series_reader::rows::Rows;

// The root that opens a file, by its kind.
fn opening(c: &mut Cursor) -> Option<Kind>
    ensures { Reads kind_parse c.old c.new result }
{
    if let Some(()) = c.tag(b"<AggregatedToEVolumesForFSP>") {
        return Some(Kind::Toe01);
    }
    let n = c.word(
        b"<AggregatedToEVolumesForSupplier>",
        b"<IndividualToEVolumesForSupplier>",
    )?;
    if n == 0 {
        return Some(Kind::Toe02);
    }
    Some(Kind::Toe03)
}

// The tags before the counter of partners. (Each of these three matches names a kind's tags; one function of a kind and three tags is no plainer.)
fn before_counter(c: &mut Cursor, kind: Kind) -> Option<()>
    ensures { Reads (strip (closing "ReceiverID" ++ opening (counter kind))) c.old c.new result }
{
    match kind {
        Kind::Toe01 => c.tag(b"</ReceiverID><SupplierCounter>"),
        Kind::Toe02 => c.tag(b"</ReceiverID><FSPCounter>"),
        Kind::Toe03 => c.tag(b"</ReceiverID><SDPSupplyCounter>"),
    }
}

// The rest of the tag behind it.
fn behind_counter(c: &mut Cursor, kind: Kind) -> Option<()>
    ensures { Reads (strip (ending (counter kind))) c.old c.new result }
{
    match kind {
        Kind::Toe01 => c.tag(b"/SupplierCounter>"),
        Kind::Toe02 => c.tag(b"/FSPCounter>"),
        Kind::Toe03 => c.tag(b"/SDPSupplyCounter>"),
    }
}

// The tag that ends a file.
fn end(c: &mut Cursor, kind: Kind) -> Option<()>
    ensures { Reads (strip (closing (root kind))) c.old c.new result }
{
    match kind {
        Kind::Toe01 => c.tag(b"</AggregatedToEVolumesForFSP>"),
        Kind::Toe02 => c.tag(b"</AggregatedToEVolumesForSupplier>"),
        Kind::Toe03 => c.tag(b"</IndividualToEVolumesForSupplier>"),
    }
}

// A file; its rows are stored, but not told. (`file_told` is the form's value, which has no count: `facts` puts it in.)
#[tactic(auto, unfolding(text::specs::Ascii::bytes, message::specs::Bytes::opening, message::specs::Bytes::ending, message::specs::Bytes::closing, message::specs::Reading::file_parse, message::specs::Reading::plain_parse, formats::specs::Exactly::fixed_parse, formats::specs::Combine::map_parse, formats::specs::Combine::pre_parse, formats::specs::Combine::post_parse, formats::specs::Combine::seq_parse))]
pub fn file(c: &mut Cursor, rows: &mut Rows) -> Option<FileFacts>
    ensures { Filled file_parse (kept_of_file c.old.at) rows_of_file c.old c.new rows.old rows.new (option_map file_told result) }
{
    let kind = opening(c)?;
    c.tag(b"<TransactionID>")?;
    let id = c.at;
    let name = passages::id(c)?;
    c.tag(b"/TransactionID><MessageCreateDateTime>")?;
    let moment = c.at;
    passages::moment(c)?;
    c.tag(b"</MessageCreateDateTime><ReceiverID>")?;
    let receiver = c.fixed(10)?;
    before_counter(c, kind)?;
    let count = c.number(b'<', u64::MAX)?;
    behind_counter(c, kind)?;
    let seen = crate::partners::partners(c, rows, kind, count)?;
    end(c, kind)?;
    let (year, month) = seen.numbers();
    Some(FileFacts {
        kind,
        receiver,
        year,
        month,
        rows: 0,
        id,
        id_length: name.len(),
        moment,
    })
}
