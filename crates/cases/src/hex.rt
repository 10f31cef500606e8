// Bytes as words of hex digits in lower case.
ghost use Rattle.std.specs.Prelude.{◌≡◌, ◌≤◌, take, replicate, IfSome};
ghost use Rattle.cases.specs.WordsInner.{word_of, rest_of};
ghost use Rattle.cases.specs.SparseInner.{nibble_of, hex_byte_of, Unhexed, UnhexedBy, hex_of};

use crate::words::Words;

// `to_digit` takes capitals too.
fn nibble(digit: u8) -> Option<u8>
    ensures { result ≡ nibble_of digit }
{
    match digit {
        b'0'..=b'9' => Some(digit - b'0'),
        b'a'..=b'f' => Some(digit - b'a' + 10),
        _ => None,
    }
}

fn hex_byte(first: u8, second: u8) -> Option<u8>
    ensures { result ≡ hex_byte_of first second }
{
    Some(16 * nibble(first)? + nibble(second)?)
}

// Puts the bytes of a hex word at the start of out, if there is room; answers how many. By place: `out[..n].iter_mut().zip(word.as_chunks::<2>().0)` was tried,
// and what the cells that were passed hold didn't close.
pub fn unhex(word: &[u8], out: &mut [u8]) -> Option<usize>
    ensures { UnhexedBy word.now out.old out.new result }
{
    let n = word.len() / 2;
    if word.len() % 2 != 0 || out.len() < n {
        return None;
    }
    for i in 0..n {
        out[i] = hex_byte(word[2 * i], word[2 * i + 1])?;
    }
    Some(n)
}

// The same for a word that may be `-`, which says no bytes.
pub fn hex_word(word: &[u8], out: &mut [u8]) -> Option<usize>
    ensures { UnhexedBy (hex_of word.now) out.old out.new result }
{
    match word {
        b"-" => Some(0),
        _ => unhex(word, out),
    }
}

// The bytes of a hex word, N at most.
#[derive(Clone, Copy, Debug, PartialEq, Eq)]
pub struct Hex<const N: usize> {
    pub bytes: [u8; N],
    pub length: usize,
    ghost within: { length ≤ N },
}

impl<const N: usize> Hex<N> {
    pub fn as_slice(&self) -> &[u8]
        ensures { result.now ≡ take self.now.length self.now.bytes }
    {
        &self.bytes[..self.length]
    }
}

// No bytes.
impl<const N: usize> Default for Hex<N> {
    ghost is_default = { λ h. (h.bytes ≡ replicate N 0) × (h.length ≡ 0) };

    fn default() -> Hex<N> {
        Hex {
            bytes: [0; N],
            length: 0,
        }
    }
}

impl Words<'_> {
    // The bytes that the next word says.
    pub fn hex<const N: usize>(&mut self) -> Option<Hex<N>>
        ensures bytes { IfSome result (λ h. Unhexed (hex_of (word_of self.old.rest.now)) (replicate N 0) h.bytes h.length) }
        ensures rest { self.new.rest.now ≡ rest_of self.old.rest.now }
    {
        let mut bytes = [0; N];
        let length = hex_word(self.word(), &mut bytes)?;
        Some(Hex { bytes, length })
    }
}
