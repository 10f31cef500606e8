// Measures: how many bytes are laid so far, of as many as there is room for. No byte is touched.
ghost use Rattle.std.specs.Prelude.{◌≡◌, ◌≤◌};

use crate::sink::Sink;

#[derive(Drop)]
pub struct Measure {
    pub laid: usize,
    pub room: usize,
    ghost within: { laid ≤ room },
}

impl Measure {
    ghost use Rattle.emitter.specs.MeasuredInner.{Counted};

    pub fn new(room: usize) -> Measure
        ensures laid { result.laid ≡ 0 }
        ensures room { result.room ≡ room }
    {
        Measure { laid: 0, room }
    }

    // n bytes more.
    fn count(&mut self, n: usize) -> Option<()>
        ensures { Counted self.old n result self.new }
    {
        if self.room - self.laid < n {
            return None;
        }
        self.laid += n;
        Some(())
    }
}

impl Sink for Measure {
    ghost use Rattle.emitter.specs.MeasuredInner.{Measured, measure-laws};

    ghost lays = { Measured };

    ghost laws = { measure-laws };

    fn lay(&mut self, bytes: &[u8]) -> Option<()> {
        self.count(bytes.len())
    }

    fn lay_fixed(&mut self, n: usize, _v: u64) -> Option<()> {
        self.count(n)
    }
}
