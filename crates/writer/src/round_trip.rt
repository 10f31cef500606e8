// That reading and writing from rows undo each other.
ghost use Rattle.writer.specs.RoundTrip.{RoundTrip};

// It does nothing: what it ensures has to be proved.
pub fn written_and_read()
    ensures { RoundTrip }
{}
