//! Texts that are made whole before any of them is written.

ghost use Rattle.cdb_program.specs.TextsMade.{WritesMade};

use cdb_explain::AnswerFault;
use cdb_streams::{Sink, write_text};
use std::alloc::Global;

/// Writes a text, where it was made.
pub(crate) fn write_made<W: Sink>(
    alloc: Global,
    made: Result<Vec<u8>, AnswerFault>,
    out: &mut W,
) -> Result<(), AnswerFault>
    ensures { WritesMade W.stream made result out.old out.new }
{
    match made {
        Ok(text) => Ok(write_text(alloc, text.as_slice(), out)?),
        Err(fault) => Err(fault),
    }
}
