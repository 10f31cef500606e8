// The line that asks for a file: where its parts stand, and where the book starts.
#![tactic(auto)]

ghost use Rattle.std.specs.Prelude.{◌≡◌};
ghost use Rattle.requests.specs.LineInner.{request_of};

use kinds::Kind;

// What a line asks for: the file's kind and receiver, where ID and moment stand, and where the book starts. The kind is a number, since the file call takes one.
#[derive(Clone, Copy, Debug, PartialEq, Eq)]
pub struct Asked {
    pub kind: u8,
    pub receiver: u64,
    pub id: usize,
    pub id_length: usize,
    pub moment: usize,
    pub book: usize,
}

// What the line at the front of the input asks for.
#[tactic(auto, using(crate::proofs::LineLaws::kinds_read), unfolding(crate::specs::LineInner::request_of, crate::specs::Line::line, formats::specs::Combine::seq_parse, formats::specs::Combine::post_parse, formats::specs::Combine::only_parse, text::specs::Ascii::bytes))]
pub fn read_request(input: &[u8]) -> Option<Asked>
    ensures { result ≡ request_of input.now }
{
    let kind = formats::fixed(input, 0, 2)?;
    Kind::try_from(kind.value).ok()?;
    let at = formats::tag(input, kind.next, b" ")?;
    let receiver = formats::fixed(input, at, 10)?;
    let id = formats::tag(input, receiver.next, b" ")?;
    let moment = formats::name(input, id, 1, 36, b' ')?;
    let end = message::moment_at(input, moment)?;
    let book = formats::tag(input, end, b"\n")?;
    Some(Asked {
        kind: kind.value as u8,
        receiver: receiver.value,
        id,
        id_length: moment - id - 1,
        moment,
        book,
    })
}
