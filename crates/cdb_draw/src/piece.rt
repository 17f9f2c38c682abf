//! The pieces of a picture's text, and how they are added to it.

ghost use Rattle.cdb_draw.specs.Pieces.{piece_text, pieces_text};
ghost use Rattle.cdb_text.specs.Pushes.{Pushes};
ghost use Rattle.std.specs.Prelude.{decimal};

use std::alloc::AllocError;

/// A piece of a text; numbers are decimal.
#[derive(Clone, Copy)]
pub enum Piece<'a> {
    Text(&'a str),
    Number(usize),
    /// A text, and a number after it.
    After(&'a str, usize),
    /// A text between two numbers.
    Between(usize, &'a str, usize),
    /// A sign, and the point after it.
    At(&'a str, usize, usize),
}

/// Adds a number.
fn push_number(text: &mut String, number: usize) -> Result<(), AllocError>
    ensures { Pushes result text.old text.new (decimal number) }
{
    let mut digits = itoa::Buffer::new();
    text.push_str(digits.format(number))
}

/// Adds a piece.
fn push_piece(text: &mut String, piece: Piece<'_>) -> Result<(), AllocError>
    ensures { Pushes result text.old text.new (piece_text piece.entry) }
{
    match piece {
        Piece::Text(it) => text.push_str(it),
        Piece::Number(number) => push_number(text, number),
        Piece::After(before, number) => {
            text.push_str(before)?;
            push_number(text, number)
        }
        Piece::Between(first, between, second) => {
            push_number(text, first)?;
            text.push_str(between)?;
            push_number(text, second)
        }
        Piece::At(sign, x, y) => {
            text.push_str(sign)?;
            push_number(text, x)?;
            text.push_str(",")?;
            push_number(text, y)
        }
    }
}

/// Adds pieces, one after the other.
pub(crate) fn push_each(text: &mut String, pieces: &[Piece<'_>]) -> Result<(), AllocError>
    ensures { Pushes result text.old text.new (pieces_text pieces.now) }
{
    for piece in pieces {
        push_piece(text, *piece)?;
    }
    Ok(())
}
