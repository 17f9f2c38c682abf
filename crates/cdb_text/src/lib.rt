//! The script grammar, and the texts of replies. A line of a script is a command or has a first fault, one of a journal
//! is the number of a seat and a command, and a reply of the control has one text:
//!
//! ```text
//! let command = parse_line(b"undo 2 1")?;
//! let reply = control.execute(alloc, seat, command)?;
//! let text = reply_text(alloc, &reply)?;
//! ```
#![tactic(auto)]

mod entry;
mod fault;
pub mod laws;
mod line;
mod text;
mod verb;
mod words;

pub use entry::parse_entry;
pub use fault::LineFault;
pub use line::parse_line;
pub use text::{
    Line, MOST_BYTES, MOST_CAUSES, MOST_ITEMS, MOST_LINE, MOST_REPORT, push_causes, push_command,
    push_decides, push_event, push_number, push_payload, push_reply, push_value, reply_text,
    write_because, write_decisions, write_registers, write_short_reply, write_view,
};
pub use words::{first_word, number_of};
