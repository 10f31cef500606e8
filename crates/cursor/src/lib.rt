// A small cursor that reads the tags, numbers and words of a text. It is lent by `&mut`; each method moves it past what it reads, or gives None and leaves it as it was.
#![tactic(auto)]

ghost use Rattle.std.specs.Prelude.{◌≡◌, ◌<◌, ◌≤◌, length, option_map, IfNone};
ghost use Rattle.formats.specs.Combine.{strip};
ghost use Rattle.formats.specs.Words.{words_parse};

use formats::Val;

// A place in a text.
#[derive(Clone, Copy, Debug)]
pub struct Cursor<'a> {
    pub text: &'a [u8],
    pub at: usize,
    ghost inside: { at ≤ length text.now },
}

impl<'a> Cursor<'a> {
    ghost use Rattle.std.specs.Prelude.{[], ◌∷◌};
    ghost use Rattle.cursor.specs.ReadsInner.{Reads, text_and_place, number_of, counter_parse, fixed_of, name_of};

    // At the text's first byte.
    pub fn new(text: &'a [u8]) -> Cursor<'a>
        ensures start { result.at ≡ 0 }
        ensures of { result.text.now ≡ text.now }
    {
        Cursor { text, at: 0 }
    }

    // At a place of the text, which may be its end; None where the text ends before it.
    pub fn at(text: &'a [u8], at: usize) -> Option<Cursor<'a>>
        ensures there { at ≤ length text.now → option_map text_and_place result ≡ Some (text.now, at) }
        ensures outside { length text.now < at → result ≡ None }
    {
        if text.len() < at {
            return None;
        }
        Some(Cursor { text, at })
    }

    // Past what was read; answers its value.
    fn pass(&mut self, found: Val) -> u64
        requires { found.next ≤ length self.old.text.now }
        ensures at { self.new.at ≡ found.next }
        ensures text { self.new.text ≡ self.old.text }
        ensures value { result ≡ found.value }
    {
        self.at = found.next;
        found.value
    }

    // Past a tag.
    #[inline(always)]
    pub fn tag(&mut self, t: &[u8]) -> Option<()>
        ensures reads { Reads (strip t.now) self.old self.new result }
        ensures stays { IfNone result (self.new ≡ self.old) }
    {
        self.at = formats::tag(self.text, self.at, t)?;
        Some(())
    }

    // Past a number without leading zeros, at most max, which is 9 or more, and the byte that ends it.
    pub fn number(&mut self, stop: u8, max: u64) -> Option<u64>
        ensures reads { Reads (number_of stop max) self.old self.new result }
        ensures stays { IfNone result (self.new ≡ self.old) }
    {
        if max < 9 {
            return None;
        }
        let found = formats::number(self.text, self.at, stop, max)?;
        Some(self.pass(found))
    }

    // Past a counter, which is 1 or more, and the byte < that ends it.
    pub fn counter(&mut self) -> Option<u64>
        ensures reads { Reads counter_parse self.old self.new result }
        ensures stays { IfNone result (self.new ≡ self.old) }
    {
        let found = formats::number(self.text, self.at, b'<', u64::MAX)?;
        if found.value == 0 {
            return None;
        }
        Some(self.pass(found))
    }

    // Past a number of n digits, at most 18.
    pub fn fixed(&mut self, n: usize) -> Option<u64>
        ensures reads { Reads (fixed_of n) self.old self.new result }
        ensures stays { IfNone result (self.new ≡ self.old) }
    {
        if 18 < n {
            return None;
        }
        let found = formats::fixed(self.text, self.at, n)?;
        Some(self.pass(found))
    }

    // Past one of two words, as 0 or 1.
    #[inline(always)]
    pub fn word(&mut self, v: &[u8], w: &[u8]) -> Option<u64>
        ensures reads { Reads (words_parse (v.now ∷ w.now ∷ [])) self.old self.new result }
        ensures stays { IfNone result (self.new ≡ self.old) }
    {
        let found = formats::word(self.text, self.at, v, w)?;
        Some(self.pass(found))
    }

    // Past a name of `least` to `most` bytes, and the byte that ends it.
    pub fn name(&mut self, least: usize, most: usize, stop: u8) -> Option<()>
        ensures reads { Reads (name_of least most stop) self.old self.new result }
        ensures stays { IfNone result (self.new ≡ self.old) }
    {
        self.at = formats::name(self.text, self.at, least, most, stop)?;
        Some(())
    }
}
