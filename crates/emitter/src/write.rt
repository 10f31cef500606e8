// Writes: each part behind the one before it, in a buffer that is lent.
ghost use Rattle.std.specs.Prelude.{◌≡◌, ◌≤◌, length};

use crate::sink::Sink;

#[derive(Drop)]
pub struct Write<'a> {
    pub out: &'a mut [u8],
    pub at: usize,
    ghost within: { at ≤ length out.now },
}

impl<'a> Write<'a> {
    pub fn new(out: &'a mut [u8]) -> Write<'a>
        ensures same { result.out.ghost_name ≡ out.entry.ghost_name }
        ensures untouched { result.out.now ≡ out.old }
        ensures at { result.at ≡ 0 }
    {
        Write { out, at: 0 }
    }
}

impl Sink for Write<'_> {
    ghost use Rattle.emitter.specs.WrittenInner.{Written, write-laws};

    ghost lays = { Written };

    ghost laws = { write-laws };

    #[inline(always)]
    fn lay(&mut self, bytes: &[u8]) -> Option<()> {
        let out = &mut *self.out;
        if out.len() - self.at < bytes.len() {
            return None;
        }
        self.at = text::put(out, self.at, bytes);
        Some(())
    }

    fn lay_fixed(&mut self, n: usize, v: u64) -> Option<()> {
        let out = &mut *self.out;
        if out.len() - self.at < n {
            return None;
        }
        self.at = text::put_fixed(out, self.at, n, v);
        Some(())
    }
}
