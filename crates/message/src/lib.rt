// The file of document 01: what its reader answers, and what its reader and its writer share. Its form and its laws stand in specs/.
#![tactic(auto)]

ghost use Rattle.std.specs.Prelude.{◌≡◌, ◌≤◌, length, take, drop};
ghost use Rattle.formats.specs.Exactly.{exactly_parse};
ghost use Rattle.formats.specs.PlaceInner.{Parsed};
ghost use Rattle.moments.specs.Moments.{moment_bytes};
ghost use Rattle.message.specs.Valid.{is_moment, last_position};
ghost use Rattle.message.specs.Reading.{is_period};
ghost use Rattle.message.specs.Exact.{ReaderExact};

use kinds::Kind;
use moments::Moment;

// What a file says beside its rows, their number, and where in the file its ID and its moment stand.
// Year and month are two numbers, 0 and 0 where the file has no series, as the facts of the C interface and the writer's title have them.
#[derive(Clone, Copy, Debug, PartialEq, Eq)]
pub struct FileFacts {
    pub kind: Kind,
    pub receiver: u64,
    pub year: u64,
    pub month: u64,
    pub rows: usize,
    pub id: usize,
    pub id_length: usize,
    pub moment: usize,
}

// The last position of a month: its quarter-hours under the name that the file's rules have.
#[tactic(auto, unfolding(crate::specs::Valid::last_position))]
pub fn last_position(year: u64, month: u64) -> u64
    ensures { result ≡ last_position year month }
{
    quarters::quarters_in_month(year, month)
}

// A moment's bytes.
#[tactic(auto, using(crate::proofs::MomentLaws::moment_filled))]
pub fn moment_text(moment: Moment) -> [u8; 29]
    ensures { result ≡ moment_bytes moment }
{
    let mut text = [0u8; 29];
    moment.write(&mut text, 0);
    text
}

// Whether a period may be of a month.
#[tactic(auto, unfolding(crate::specs::Reading::is_period))]
pub fn is_period(year: u64, month: u64) -> bool
    ensures { result ≡ is_period (year, month) }
{
    (2018..=2099).contains(&year) && (1..=12).contains(&month)
}

// The 29 bytes of a moment: the place behind them.
#[tactic(auto, using(crate::proofs::MomentLaws::moments_read))]
pub fn moment_at(s: &[u8], at: usize) -> Option<usize>
    requires { at ≤ length s.now }
    ensures { Parsed (exactly_parse 29 is_moment) s.now at (take 29 (drop at s.now)) result }
{
    let text = s[at..].get(..29)?;
    moments::read_moment(text)?;
    Some(at + 29)
}

// That the file reader accepts exactly the files of our form. It does nothing: what it ensures has to be proved.
#[tactic(auto, using(crate::proofs::ExactLaws::exact_readers))]
pub fn reader_is_exact()
    ensures { ReaderExact }
{}
