//! Writers of the system as sinks.

ghost use Rattle.std.specs.Prelude.{◌≡◌};

use crate::sink::{Failed, Sink};
use std::io::Write;

/// A writer of the standard library whose failures are counted. What it holds is what the writer holds.
#[derive(Drop)]
pub struct Output<W: Write + Drop> {
    writer: W,
    failures: u64,
}

impl<W: Write + Drop> Output<W> {
    /// The writer, of which no call has failed.
    pub fn new(writer: W) -> Self
        ensures writer { result.writer ≡ writer }
        ensures failures { result.failures ≡ 0 }
    {
        Output {
            writer,
            failures: 0,
        }
    }

    /// The writer, with what it holds.
    pub fn into_inner(self) -> W
        ensures { result ≡ self.writer }
    {
        self.writer
    }
}

impl<W: Write + Drop> Sink for Output<W> {
    ghost stream = { λ out. record { bytes = W.contents out.writer; failures = out.failures } };

    fn write(&mut self, piece: &[u8]) -> Result<usize, Failed> {
        let Ok(count) = self.writer.write(piece) else {
            self.failures = self.failures.wrapping_add(1);
            return Err(Failed);
        };
        if count == 0 && !piece.is_empty() {
            self.failures = self.failures.wrapping_add(1);
        }
        Ok(count)
    }
}
