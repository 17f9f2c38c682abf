//! Texts that are written piece by piece, without memory.

ghost use Rattle.cdb_streams.specs.Pieces.{piece_text, pieces_text};
ghost use Rattle.cdb_streams.specs.Streams.{Writes};

use crate::sink::{Failed, Sink, write_all};
use itoa::Buffer;

/// A piece of a text.
#[derive(Clone, Copy)]
pub enum Piece<'a> {
    Text(&'a str),
    /// A number, which is written in decimal.
    Number(usize),
}

/// Writes a piece. Where the writer fails, what was written is a beginning of it.
pub fn write_piece<W: Sink>(out: &mut W, piece: Piece<'_>) -> Result<(), Failed>
    ensures { Writes W.stream result out.old out.new (piece_text piece.entry) }
{
    match piece {
        Piece::Text(text) => write_all(out, text.as_bytes()),
        Piece::Number(number) => {
            let mut buffer = Buffer::new();
            write_all(out, buffer.format(number).as_bytes())
        }
    }
}

/// Writes the pieces, one after the other. Where the writer fails, what was written is a beginning of their
/// text. It takes no memory.
pub fn write_each<W: Sink>(out: &mut W, pieces: &[Piece<'_>]) -> Result<(), Failed>
    ensures { Writes W.stream result out.old out.new (pieces_text pieces.now) }
{
    for piece in pieces {
        write_piece(out, *piece)?;
    }
    Ok(())
}
