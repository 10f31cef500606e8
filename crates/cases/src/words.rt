// The words of a line, parted by single spaces.
ghost use Rattle.std.specs.Prelude.{◌≡◌, ◌==◌, ◌≤◌, IfSome};
ghost use Rattle.std.specs.List.{position};
ghost use Rattle.cases.specs.WordsInner.{word_of, rest_of, number_of, up_to, with_digit_of};

// The words from a place on, which are taken off one by one.
#[derive(Clone, Copy, Debug, PartialEq, Eq)]
pub struct Words<'a> {
    pub rest: &'a [u8],
}

impl<'a> Words<'a> {
    pub fn new(line: &'a [u8]) -> Words<'a>
        ensures { result.rest.now ≡ line.now }
    {
        Words { rest: line }
    }

    // The next word. Behind the last it is empty and no Option: an empty word says no number and no bytes, so what reads a word needs no case more.
    pub fn word(&mut self) -> &'a [u8]
        ensures word { result.now ≡ word_of self.old.rest.now }
        ensures rest { self.new.rest.now ≡ rest_of self.old.rest.now }
    {
        let line = self.rest;
        match first_space(line) {
            Some(end) => {
                self.rest = &line[end + 1..];
                &line[..end]
            }
            None => {
                self.rest = &[];
                line
            }
        }
    }

    // The number that the next word says.
    pub fn number(&mut self) -> Option<u64>
        ensures number { result ≡ number_of (word_of self.old.rest.now) }
        ensures rest { self.new.rest.now ≡ rest_of self.old.rest.now }
    {
        number(self.word())
    }

    // The same, if it is at most so many.
    pub fn number_up_to(&mut self, most: usize) -> Option<usize>
        ensures number { result ≡ up_to most (number_of (word_of self.old.rest.now)) }
        ensures within { IfSome result (λ n. (number_of (word_of self.old.rest.now) ≡ Some n) × (n ≤ most)) }
        ensures rest { self.new.rest.now ≡ rest_of self.old.rest.now }
    {
        let n = self.number()? as usize;
        if n <= most { Some(n) } else { None }
    }
}

fn first_space(line: &[u8]) -> Option<usize>
    ensures { result ≡ position (λ x. x == 32) line.now }
{
    line.iter().position(|byte| *byte == b' ')
}

// A number with one digit more, if the byte is one and the number fits 64 bits.
fn with_digit(value: u64, byte: u8) -> Option<u64>
    ensures { result ≡ with_digit_of value byte }
{
    let digit = (byte as char).to_digit(10)?;
    value.checked_mul(10)?.checked_add(digit as u64)
}

// The number that a word says in decimal digits.
pub fn number(word: &[u8]) -> Option<u64>
    ensures { result ≡ number_of word.now }
{
    if word.is_empty() {
        return None;
    }
    let mut value = 0u64;
    for byte in word {
        value = with_digit(value, *byte)?;
    }
    Some(value)
}
