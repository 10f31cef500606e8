// Where a file's bytes are laid, one part behind the other.
ghost use Rattle.std.specs.Prelude.{ℕ, List, Option};
ghost use Rattle.text.specs.Decimal.{fixed, plain};
ghost use Rattle.emitter.specs.SinksInner.{SinkLaws};

pub trait Sink {
    // What laying bytes leads to, from one state to the next, and what it gives: none where they have no room.
    ghost lays: { Self → List ℕ → Option Unit → Self → Type 0 };

    fn lay(&mut self, bytes: &[u8]) -> Option<()>
        ensures { lays self.old bytes.now result self.new };

    // The number's last n digits. A method of its own, since measuring needs none of them.
    fn lay_fixed(&mut self, n: usize, v: u64) -> Option<()>
        ensures { lays self.old (fixed n v) result self.new };

    ghost laws: { SinkLaws lays };
}

// The number without leading zeros.
pub fn lay_plain<S: Sink>(sink: &mut S, v: u64) -> Option<()>
    ensures { S.lays sink.old (plain v) result sink.new }
{
    sink.lay_fixed(text::width(v), v)
}
