// What the program prints for its input.
#![tactic(auto)]

ghost use Rattle.std.specs.Prelude.{◌≡◌, ◌≤◌, length};
ghost use Rattle.text.specs.WrittenInner.{Wrote};
ghost use Rattle.requests.specs.LineInner.{request_of};
ghost use Rattle.outputs.specs.Output.{input_most, rows_lent, file_lent, refused_line, CutAlike, Printed};
ghost use Rattle.outputs.specs.OutputInner.{Filed};

use refusals::Refused;
use requests::Asked;

// Writes `refused NUMBER ITEM` and a line feed; answers how many bytes. By text's writers and not by Display, whose contract doesn't say the bytes.
#[tactic(auto, using(crate::proofs::OutputLaws::few_places))]
pub fn put_refused(out: &mut [u8], number: u64, item: u64) -> usize
    requires { 50 ≤ length out.old }
    ensures { Wrote out.old 0 (refused_line number item) out.new result }
{
    let a = text::put(out, 0, b"refused ");
    let b = text::put_plain(out, a, number);
    let c = text::put(out, b, b" ");
    let d = text::put_plain(out, c, item);
    text::put(out, d, b"\n")
}

// The file that a line asks for, in front of `out`: how many bytes, or the refusal.
#[tactic(auto, using(crate::proofs::OutputLaws::parts_inside))]
fn file_asked(
    input: &[u8],
    asked: Asked,
    rows: &mut [i64],
    out: &mut [u8],
) -> Result<usize, Refused>
    requires { (Some asked ≡ request_of input.now) × (length input.now ≤ input_most) × (length rows.old ≡ rows_lent) × (length out.old ≡ file_lent) }
    ensures { Filed input.now rows.old rows.new out.old out.new result }
{
    let (_, count) = filing::file::file(
        &input[asked.book..],
        asked.kind,
        asked.receiver,
        &input[asked.id..asked.id + asked.id_length],
        &input[asked.moment..asked.moment + 29],
        rows,
        out,
    )?;
    Ok(count)
}

// The file that the input asks for.
fn file(input: &[u8], rows: &mut [i64], out: &mut [u8]) -> Result<usize, Refused>
    requires { (length rows.old ≡ rows_lent) × (length out.old ≡ file_lent) }
    ensures { Filed input.now rows.old rows.new out.old out.new result }
{
    let asked = requests::read_request(input).ok_or(Refused::Malformed)?;
    if 65536 < input.len() {
        return Err(Refused::Layout);
    }
    file_asked(input, asked, rows, out)
}

// The output, in front of `out`; answers how many bytes.
pub fn answer(input: &[u8], rows: &mut [i64; 10240], out: &mut [u8; 65536]) -> usize
    ensures { Printed input.now rows.old rows.new out.old out.new result }
{
    match file(input, rows, out) {
        Ok(count) => count,
        Err(refused) => put_refused(out, refused.number(), refused.item() as u64),
    }
}

// That the program may leave the rest of a long input unread. It does nothing: what it ensures has to be proved.
#[tactic(auto, using(crate::proofs::CutLaws::cut_outputs))]
pub fn long_input_may_be_cut()
    ensures { CutAlike }
{}
