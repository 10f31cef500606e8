// Reading the parts of a text of fixed form. A reader takes a place and gives the one behind what it read, or none.
// A text and a place in it are two arguments, and that the place lies inside is asked: the struct of both is `Cursor` of `cursor`, whose methods are made of these.
#![tactic(auto)]

ghost use Rattle.std.specs.Prelude.{◌≡◌, not, [], ◌∷◌, ◌+◌, ◌≤◌, length, drop};
ghost use Rattle.std.specs.List.{position};
ghost use Rattle.formats.specs.Combine.{strip};
ghost use Rattle.formats.specs.Words.{words_parse};
ghost use Rattle.formats.specs.Exactly.{fixed_digits};
ghost use Rattle.formats.specs.Numbers.{number_parse};
ghost use Rattle.formats.specs.Name.{name_byte, span, name_parse};
ghost use Rattle.formats.specs.PlaceInner.{Parsed, Valued};

// A value that was read, and the place behind it.
#[derive(Clone, Copy, Debug, PartialEq, Eq)]
pub struct Val {
    pub value: u64,
    pub next: usize,
}

// A tag.
#[tactic(auto, using(crate::proofs::PlaceLaws::tags))]
#[inline(always)]
pub fn tag(s: &[u8], at: usize, t: &[u8]) -> Option<usize>
    requires { at ≤ length s.now }
    ensures { Parsed (strip t.now) s.now at tt result }
{
    if text::matches(s, at, t) {
        Some(at + t.len())
    } else {
        None
    }
}

// One of two words, as 0 or 1: a number, since the form, `words_parse`, gives the word's place in its list.
#[tactic(auto, unfolding(crate::specs::Words::words_parse))]
#[inline(always)]
pub fn word(s: &[u8], at: usize, v: &[u8], w: &[u8]) -> Option<Val>
    requires { at ≤ length s.now }
    ensures { Valued (words_parse (v.now ∷ w.now ∷ [])) s.now at result }
{
    if let Some(next) = tag(s, at, v) {
        return Some(Val { value: 0, next });
    }
    let next = tag(s, at, w)?;
    Some(Val { value: 1, next })
}

// A number of n digits, 18 at most: so many always fit a u64.
#[tactic(auto, using(crate::proofs::PlaceLaws::fixed_values))]
pub fn fixed(s: &[u8], at: usize, n: usize) -> Option<Val>
    requires { (at ≤ length s.now) × (n ≤ 18) }
    ensures { Valued (fixed_digits n).parse s.now at result }
{
    let value = text::fixed_at(s, at, n)?;
    Some(Val {
        value,
        next: at + n,
    })
}

// A number without leading zeros, at most max, and the byte that ends it. The loop goes by place, since the place behind the number is part of the answer.
#[tactic(auto, using(crate::proofs::PlaceLaws::number_steps))]
pub fn number(s: &[u8], at: usize, stop: u8, max: u64) -> Option<Val>
    requires { 9 ≤ max }
    ensures { Valued (number_parse stop max) s.now at result }
{
    let first = *s.get(at)?;
    if !first.is_ascii_digit() {
        return None;
    }
    let mut value = u64::from(first - b'0');
    for p in at + 1..s.len() {
        let x = s[p];
        if x == stop {
            return Some(Val { value, next: p + 1 });
        }
        if !x.is_ascii_digit() {
            return None;
        }
        let d = u64::from(x - b'0');
        if value == 0 {
            return None;
        }
        if (max - d) / 10 < value {
            return None;
        }
        value = value * 10 + d;
    }
    None
}

// Whether a name may have the byte.
pub fn is_name_byte(x: u8) -> bool
    ensures { result ≡ name_byte x }
{
    x == b'-' || x.is_ascii_alphanumeric()
}

// How many bytes of a name come before the first other one, if there is one.
fn before_other(s: &[u8]) -> Option<usize>
    ensures { result ≡ position (λ x. not (name_byte x)) s.now }
{
    s.iter().position(|x| !is_name_byte(*x))
}

// The place behind the bytes of a name that stand at `at`.
pub fn name_end(s: &[u8], at: usize) -> usize
    requires { at ≤ length s.now }
    ensures { result ≡ at + length (span name_byte (drop at s.now)) }
{
    let rest = &s[at..];
    at + before_other(rest).unwrap_or(rest.len())
}

// A name of `least` to `most` bytes, and the byte that ends it. The name's bytes end before the last.
// Two comparisons of its length: what `contains` says of a range of two variables was tried and didn't close here.
#[tactic(auto, using(crate::proofs::PlaceLaws::names))]
pub fn name(s: &[u8], at: usize, least: usize, most: usize, stop: u8) -> Option<usize>
    requires { at ≤ length s.now }
    ensures { Parsed (name_parse name_byte least most stop) s.now at (span name_byte (drop at s.now)) result }
{
    let end = name_end(s, at);
    let n = end - at;
    if n < least || most < n {
        return None;
    }
    tag(s, end, &[stop])
}
