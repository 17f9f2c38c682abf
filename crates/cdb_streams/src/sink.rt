//! Writers.

ghost use Rattle.std.specs.Prelude.{◌≡◌};
ghost use Rattle.std.specs.Io.{WritesAtMost};
ghost use Rattle.std.specs.Io.KnownBytes.{WriteAppends};
ghost use Rattle.cdb_streams.specs.Streams.{Stream, Writes, is_failure, counted};

use std::error::Error;
use std::fmt;

/// A call on a reader or a writer failed.
#[derive(Clone, Copy, Debug, PartialEq, Eq)]
pub struct Failed;

impl fmt::Display for Failed {
    ghost use Rattle.std.specs.Prelude.{Some, codes};

    ghost output = { λ _. Some (codes "input or output failed") };

    fn fmt<W: fmt::Write>(&self, f: &mut fmt::Formatter<W>) -> fmt::Result {
        f.write_str("input or output failed")
    }
}

impl Error for Failed {}

/// What takes bytes.
pub trait Sink {
    /// The bytes that it holds, where they are known, and how many of its calls have failed, in 64 bits.
    ghost stream: { Self → Stream };

    /// Takes a beginning of the piece, and returns its length. After an error it holds what it held.
    fn write(&mut self, piece: &[u8]) -> Result<usize, Failed>
        ensures within { WritesAtMost result piece.now }
        ensures bytes { WriteAppends (stream self.old).bytes (stream self.new).bytes
            result piece.now }
        ensures failures { (stream self.new).failures
            ≡ counted (is_failure result piece.now) (stream self.old).failures };
}

/// Writes all the bytes. A write that takes none of them is a failure, and none is tried again.
pub fn write_all<W: Sink>(out: &mut W, bytes: &[u8]) -> Result<(), Failed>
    ensures { Writes W.stream result out.old out.new bytes.now }
{
    let mut done = 0;
    while done < bytes.len() {
        let count = out.write(&bytes[done..])?;
        if count == 0 {
            return Err(Failed);
        }
        done += count;
    }
    Ok(())
}
