//! A reader, a writer and what takes new files as the parts of a console.

ghost use Rattle.std.specs.Prelude.{◌≡◌, ◌∷◌, [], List, Option};
ghost use Rattle.cdb_session.specs.Moves.{Continues, Saving, saving_of};

use crate::console::Console;
use cdb_streams::{Failed, Sink, Source};

/// What takes new files.
pub trait NewFiles {
    /// What was to be written to a new file, in order, where that is known.
    ghost saved: { Self → Option (List Saving) };

    /// Writes a text to a new file of this name. After an error there is no such file, or one that was there before.
    fn save(&mut self, name: &[u8], text: &[u8]) -> Result<(), Failed>
        ensures { Continues (saved self.old) (saved self.new) (saving_of result name.now text.now ∷ []) };
}

/// A session reads from the one, writes to the other, and makes files in the third. In which order that was, only all
/// of them together know, so of its moves it is known what they read, wrote and saved, and which failed, and not their
/// order.
#[derive(Drop)]
pub struct Streams<R: Source + Drop, W: Sink + Drop, F: NewFiles + Drop> {
    pub input: R,
    pub output: W,
    pub files: F,
}

impl<R: Source + Drop, W: Sink + Drop, F: NewFiles + Drop> Streams<R, W, F> {
    /// Lines come from the one, responses go to the other, and files to the third.
    pub fn new(input: R, output: W, files: F) -> Self
        ensures input { result.input ≡ input }
        ensures output { result.output ≡ output }
        ensures files { result.files ≡ files }
    {
        Streams {
            input,
            output,
            files,
        }
    }
}

impl<R: Source + Drop, W: Sink + Drop, F: NewFiles + Drop> Console for Streams<R, W, F> {
    ghost use Rattle.std.specs.Prelude.{None};

    ghost known = { λ streams. record {
      moves = None;
      left = (R.stream streams.input).bytes;
      held = (W.stream streams.output).bytes;
      saved = F.saved streams.files;
      failed_reads = (R.stream streams.input).failures;
      failed_writes = (W.stream streams.output).failures;
    } };

    fn read(&mut self, buffer: &mut [u8]) -> Result<usize, Failed> {
        self.input.read(buffer)
    }

    fn write(&mut self, piece: &[u8]) -> Result<usize, Failed> {
        self.output.write(piece)
    }

    fn save(&mut self, name: &[u8], text: &[u8]) -> Result<(), Failed> {
        self.files.save(name, text)
    }
}
