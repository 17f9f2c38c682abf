//! What the commands of sessions do to one run, with breakpoints, redo lists and the journal of all
//! commands. The state of a control is the replay of its journal.
//!
//! ```text
//! let mut control: Control<AnyRun> = Control::open(alloc, setup, 1)?;
//! let reply = control.execute(alloc, 1, Command::Auto(1))?;
//! let journal = control.journal();
//! ```
#![tactic(auto)]

mod control;
pub mod laws;
mod one_seat;
mod state;
mod stops;

pub use cdb_base::{Act, ProcView};
pub use cdb_commands::{Command, Reply, Stop, View};
pub use cdb_rules::{EventRef, Runs};
pub use control::{CallFault, Control, Entry, OpenFault};
pub use one_seat::open_for;
