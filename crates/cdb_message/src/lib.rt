//! Messages and their copies: what each process sent, which messages it received, and which copies
//! the network lost. Each process gets a copy of each message, the sender too:
//!
//! ```text
//! let mut mail = Mail::new(alloc, 2)?;
//! let name = mail.send(alloc, Proc::new(1), payload)?;
//! let first = mail.pending(Proc::new(2), None);
//! ```
#![tactic(auto)]

mod flags;
pub mod mail;
mod outbox;
mod passed;

pub use mail::Mail;
