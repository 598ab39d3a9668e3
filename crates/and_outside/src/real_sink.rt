//! A sink over a writer of the system.

ghost use Rattle.std.specs.Prelude.{◌≡◌};

use crate::answer::Failed;
use crate::sink::Sink;
use crate::writing::write_all;
use std::io::Write;

/// Puts into a writer that keeps no bytes back, as standard output. Of what was written nothing is
/// told.
#[derive(Drop)]
pub struct RealSink<W: Write + Drop> {
    writer: W,
    faults: u64,
    calls: u64,
    before: u64,
}

impl<W: Write + Drop> RealSink<W> {
    /// A sink over this writer, with its counts at 0.
    pub fn make(writer: W) -> RealSink<W>
        ensures { result ≡ record { writer = writer; faults = 0; calls = 0; before = 0 } }
    {
        RealSink {
            writer,
            faults: 0,
            calls: 0,
            before: 0,
        }
    }
}

impl<W: Write + Drop> Sink for RealSink<W> {
    ghost use Rattle.std.specs.Prelude.{None};

    ghost stream = { λ s. record { faults = s.faults; written = None; calls = s.calls; before = s.before } };

    fn put(&mut self, bytes: &[u8]) -> Result<(), Failed> {
        self.calls = self.calls.saturating_add(1);
        self.before = self.faults;
        if write_all(&mut self.writer, bytes) {
            return Ok(());
        }
        self.faults = self.faults.saturating_add(1);
        Err(Failed)
    }
}
