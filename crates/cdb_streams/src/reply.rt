//! The text of a reply is put into a buffer.

ghost use Rattle.cdb_commands.specs.ReplyView.{reply_view};
ghost use Rattle.cdb_text.specs.Texts.{text_of};
ghost use Rattle.cdb_streams.specs.PiecesPut.{Puts};

use crate::buffer::{Buffer, OutputFault};
use crate::sink::Sink;
use cdb_commands::Reply;
use cdb_text::push_reply;

/// Puts the text of a reply. It is made in `text`, in place of what stood there, so that all replies use one memory.
#[inline(never)]
fn put_made<W: Sink>(
    reply: &Reply,
    text: &mut String,
    buffer: &mut Buffer,
    out: &mut W,
) -> Result<(), OutputFault>
    ensures { Puts W.stream result out.old buffer.old out.new buffer.new
        (text_of (reply_view reply.now)) }
{
    text.clear();
    push_reply(text, reply)?;
    buffer.put(out, text.as_bytes())?;
    Ok(())
}

/// Puts the text of a reply. A short report is written in the buffer itself, and so are the lines of the mail and of
/// the history; else the text is made in `text`.
pub fn put_reply<W: Sink>(
    reply: &Reply,
    text: &mut String,
    buffer: &mut Buffer,
    out: &mut W,
) -> Result<(), OutputFault>
    ensures { Puts W.stream result out.old buffer.old out.new buffer.new
        (text_of (reply_view reply.now)) }
{
    if buffer.put_short(reply) {
        return Ok(());
    }
    if buffer.put_report(reply) {
        return Ok(());
    }
    match reply {
        Reply::Mail(copies) if !copies.is_empty() => buffer.put_lines(out, copies.as_slice()),
        Reply::History(events) if !events.is_empty() => buffer.put_lines(out, events.as_slice()),
        _ => put_made(reply, text, buffer, out),
    }
}
