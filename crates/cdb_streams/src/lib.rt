//! Readers and writers, scripts, the texts of replies on their way to a writer, and the faults of plays and races with
//! their texts and statuses.
#![tactic(auto)]

mod buffer;
mod fault;
mod fault_text;
mod input;
mod lines;
mod output;
mod piece;
mod reply;
mod script;
mod sink;
mod source;
mod status;

pub use buffer::{Buffer, OutputFault, write_text};
pub use fault::{PlayFault, RaceFault};
pub use fault_text::{write_fault, write_race_fault};
pub use input::{Bytes, HeldBytes, Input};
pub use lines::first_line;
pub use output::Output;
pub use piece::{Piece, write_each};
pub use reply::put_reply;
pub use script::{ScriptFault, commands_of, read_commands};
pub use sink::{Failed, Sink, write_all};
pub use source::{ReadFault, Source, read_up_to};
pub use status::{fits, race_status_of, status_of};
