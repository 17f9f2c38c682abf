//! The texts of replies.

ghost use Rattle.std.specs.Prelude.{◌≡◌, IfOk};
ghost use Rattle.cdb_text.specs.Pushes.{Pushes};
ghost use Rattle.cdb_commands.specs.ReplyView.{reply_view};
ghost use Rattle.cdb_text.specs.Texts.{text_of};

/// Adds at the end of a text what a function writes in bytes, for which it must need no more than `MOST_BYTES`.
macro_rules! push_written {
    ($text:expr, $write:ident($($given:expr),*)) => {{
        let mut bytes = [0; MOST_BYTES];
        let end = $write(&mut bytes, 0, $($given),*);
        push_bytes($text, &bytes[..end])
    }};
}

mod bytes;
mod command;
mod report;
mod short;
mod short_report;

use bytes::push_bytes;
pub use bytes::{push_decides, push_event, push_number, push_payload, push_value};
use cdb_base::NoMemory;
use cdb_commands::Reply;
pub use command::push_command;
pub use report::push_causes;
use report::{push_decisions, push_history, push_mail, push_process, push_registers};
pub use short::{MOST_BYTES, MOST_CAUSES, MOST_REPORT, write_because, write_short_reply};
use short::{write_name, write_redone, write_refused, write_stepped, write_undone};
pub use short_report::{Line, MOST_ITEMS, MOST_LINE, write_decisions, write_registers, write_view};
use std::alloc::{AllocError, Global};

/// As many bytes as all replies but reports have, so that their texts need one allocation.
const MOST_REPLIES: usize = 64;

/// Adds the text of a reply at the end of a text: its lines, each of which ends with byte 10. Only out of memory
/// is an error.
pub fn push_reply(text: &mut String, reply: &Reply) -> Result<(), AllocError>
    ensures { Pushes result text.old text.new (text_of (reply_view reply.now)) }
{
    match reply {
        Reply::Stepped {
            event,
            decides,
            paused,
        } => push_written!(text, write_stepped(event, *decides, *paused)),
        Reply::Undone(event) => push_written!(text, write_undone(event)),
        Reply::Redone { event, decides } => push_written!(text, write_redone(event, *decides)),
        Reply::RolledBack(count) => writeln!(text, "rolled back {count}"),
        Reply::Because(name, causes) => {
            push_written!(text, write_name(*name))?;
            text.push_str(" because")?;
            push_causes(text, causes.as_slice())?;
            text.push('\n')
        }
        Reply::BreakSet(number) => writeln!(text, "break {number}"),
        Reply::BreakGone(number) => writeln!(text, "unbreak {number}"),
        Reply::Resumed => text.push_str("resumed\n"),
        Reply::Forgot(count) => writeln!(text, "forgot {count}"),
        Reply::Proc(view) => push_process(text, view),
        Reply::Regs(cells) => push_registers(text, cells.as_slice()),
        Reply::Mail(copies) => push_mail(text, copies.as_slice()),
        Reply::History(events) => push_history(text, events.as_slice()),
        Reply::Decisions(decisions) => push_decisions(text, decisions.as_slice()),
        Reply::Refused(refusal) => push_written!(text, write_refused(refusal)),
    }
}

/// The text of a reply: its lines, each of which ends with byte 10. `NoMemory` if an allocation fails.
pub fn reply_text(alloc: Global, reply: &Reply) -> Result<Vec<u8>, NoMemory>
    ensures { IfOk result (λ bytes. bytes.items ≡ text_of (reply_view reply.now)) }
{
    let mut text = String::with_capacity(alloc, MOST_REPLIES)?;
    push_reply(&mut text, reply)?;
    Ok(text.into_bytes())
}
