//! What a session can ask for, and the replies that it gets: the types alone, and a list of the commands for whoever
//! writes them. What a command does is said by the crates of the control, and how a command and a reply are written by
//! that of the texts.
//!
//! ```text
//! let command = Command::Step(1, Act::Go);
//! let reply = Reply::Undone(event);
//! ```
#![tactic(auto)]

mod command;
mod help;
mod reply;

pub use command::{Command, Stop, View};
pub use help::COMMANDS;
pub use reply::Reply;
