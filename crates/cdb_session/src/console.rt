//! What a session reads from and writes to.

ghost use Rattle.std.specs.Prelude.{◌≡◌, ◌<◌, ◌++◌, ◌∷◌, [], length};
ghost use Rattle.std.specs.Io.{ReadsAtMost, WritesAtMost};
ghost use Rattle.cdb_session.specs.Moves.{Known, Makes, Saves, move_of_read, move_of_write, saving_of, says, WritesAll};

use cdb_streams::Failed;

/// What gives the lines of a session, and takes the responses and new files.
pub trait Console {
    /// What is known of it: what was read from it and written to it.
    ghost known: { Self → Known };

    /// Puts the next bytes at the front of the buffer, which is not empty, and returns how many: 0 at the end alone.
    /// After an error none were read.
    fn read(&mut self, buffer: &mut [u8]) -> Result<usize, Failed>
        requires { 0 < length buffer.old }
        ensures within { ReadsAtMost result buffer.new }
        ensures moves { Makes (known self.old) (known self.new)
            (move_of_read result buffer.new ∷ []) };

    /// Takes a beginning of the piece, which is not empty, and returns its length. After an error none of it was
    /// taken.
    fn write(&mut self, piece: &[u8]) -> Result<usize, Failed>
        requires { 0 < length piece.now }
        ensures within { WritesAtMost result piece.now }
        ensures moves { Makes (known self.old) (known self.new)
            (move_of_write result piece.now ∷ []) };

    /// Writes a text to a new file of this name. After an error there is no such file, or one that was there before.
    fn save(&mut self, name: &[u8], text: &[u8]) -> Result<(), Failed>
        ensures moves { Makes (known self.old) (known self.new)
            (Saves (saving_of result name.now text.now) ∷ []) };
}

/// Writes all the bytes. A write that takes none of them is a failure, and none is tried again.
pub fn write_all<T: Console>(console: &mut T, bytes: &[u8]) -> Result<(), Failed>
    ensures { WritesAll result (T.known console.old) (T.known console.new) (says bytes.now) }
{
    let mut done = 0;
    while done < bytes.len() {
        let count = console.write(&bytes[done..])?;
        if count == 0 {
            return Err(Failed);
        }
        done += count;
    }
    Ok(())
}
