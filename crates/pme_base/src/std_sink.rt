// The system's output streams.
ghost use Rattle.std.specs.Prelude.{◌≡◌, None};

use crate::faults::counted;
use crate::outside::{Sink, Trouble};
use std::io;

/// A writer of the system, such as standard output or standard error. Contracts don't see what was written.
#[derive(Drop)]
pub struct StdSink<W: io::Write> {
    writer: W,
    faults: u64,
}

impl<W: io::Write> StdSink<W> {
    /// A sink that writes to `writer`.
    pub fn new(writer: W) -> StdSink<W>
        ensures { result.faults ≡ 0 }
    {
        StdSink { writer, faults: 0 }
    }
}

impl<W: io::Write> Sink for StdSink<W> {
    ghost written = { λ _. None };

    ghost faults = { λ s. s.faults };

    fn put(&mut self, bytes: &[u8]) -> Result<(), Trouble> {
        counted(&mut self.faults, self.writer.write_all(bytes))?;
        counted(&mut self.faults, self.writer.flush())?;
        Ok(())
    }
}
