// Bytes of text, in and out: tags, decimals of a fixed number of digits and without leading zeros.
// What writes takes the buffer and a place in it, as `Wrote` says: the struct of both is `Write` of `emitter`, whose methods are made of these.
#![tactic(auto)]

ghost use Rattle.std.specs.Prelude.{◌≡◌, ◌+◌, ◌≤◌, length, drop};
ghost use Rattle.text.specs.Tag.{begins};
ghost use Rattle.text.specs.Decimal.{fixed, plain, fixed_at};
ghost use Rattle.text.specs.WrittenInner.{Wrote};

// Whether the tag stands at `at`. No byte ends the loop, so that the compiler compares several at once: `starts_with` took three times as long.
// By `for (a, b) in rest.iter().zip(tag)` it was tried and proved, and took 7 to 14 in a hundred longer on tags of 3, 8 and 24 bytes.
#[tactic(auto, using(crate::proofs::TagLaws::tags))]
#[inline(always)]
pub fn matches(s: &[u8], at: usize, tag: &[u8]) -> bool
    ensures { result ≡ begins tag.now (drop at s.now) }
{
    let Some(rest) = s.get(at..) else {
        return tag.is_empty();
    };
    if rest.len() < tag.len() {
        return false;
    }
    let mut same = true;
    for i in 0..tag.len() {
        same &= rest[i] == tag[i];
    }
    same
}

// The number of n digits that stands at `at`, 18 at most: so many always fit a u64.
#[tactic(auto, using(crate::proofs::FixedLaws::numbers_read))]
pub fn fixed_at(s: &[u8], at: usize, n: usize) -> Option<u64>
    requires { n ≤ 18 }
    ensures { result ≡ fixed_at s.now at n }
{
    let digits = s.get(at..)?.get(..n)?;
    let mut value: u64 = 0;
    for x in digits {
        if !x.is_ascii_digit() {
            return None;
        }
        value = value * 10 + u64::from(x - b'0');
    }
    Some(value)
}

// Writes the tag at `at`; answers the place behind it. Byte by byte: `copy_from_slice` would have the library need `memmove` from outside.
#[tactic(auto, using(crate::proofs::WrittenLaws::bytes_written))]
#[inline(always)]
pub fn put(out: &mut [u8], at: usize, tag: &[u8]) -> usize
    requires { at + length tag.now ≤ length out.old }
    ensures { Wrote out.old at tag.now out.new result }
{
    let n = tag.len();
    for k in 0..n {
        out[at + k] = tag[k];
    }
    at + n
}

// Writes v's last n digits at `at`; answers the place behind them. By place: `out[at..at + n].iter_mut().rev()` was tried, and didn't close, as its loop's invariant
// has no name for the buffer, which is lent to the iterator.
#[tactic(auto, using(crate::proofs::FixedLaws::digits_written))]
pub fn put_fixed(out: &mut [u8], at: usize, n: usize, v: u64) -> usize
    requires { at + n ≤ length out.old }
    ensures { Wrote out.old at (fixed n v) out.new result }
{
    let mut w = v;
    for k in (0..n).rev() {
        out[at + k] = b'0' + (w % 10) as u8;
        w /= 10;
    }
    at + n
}

// How many digits v has without leading zeros. A `while`: std counts no decimal digits, and what the loop goes over is no list.
#[tactic(auto, using(crate::proofs::DecimalLaws::widths))]
pub fn width(v: u64) -> usize
    ensures { result ≡ length (plain v) }
{
    let mut n = 1;
    let mut w = v / 10;
    while 0 < w {
        n += 1;
        w /= 10;
    }
    n
}

// Writes v without leading zeros at `at`; answers the place behind it.
#[tactic(auto, using(crate::proofs::DecimalLaws::plains))]
pub fn put_plain(out: &mut [u8], at: usize, v: u64) -> usize
    requires { at + length (plain v) ≤ length out.old }
    ensures { Wrote out.old at (plain v) out.new result }
{
    let n = width(v);
    put_fixed(out, at, n, v)
}
