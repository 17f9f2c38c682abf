//! Names, values, events and refusals of the debugger: plain types with their ranges; and the start of a thread.
//!
//! ```text
//! let process = Proc::new(2);
//! let step = StepName { p: process, k: 11 };
//! let value = Val::new(5);
//! ```
#![tactic(auto)]

pub mod act;
pub mod event;
pub mod limits;
pub mod name;
pub mod no_memory;
pub mod payload;
pub mod proc_view;
pub mod question;
pub mod refusal;
pub mod register;
pub mod request;
pub mod start;
pub mod value;

pub use act::Act;
pub use event::{Event, Kind};
pub use name::{CopyName, MsgName, Proc, StepId, StepName};
pub use no_memory::{LibraryError, NoMemory};
pub use payload::Payload;
pub use proc_view::ProcView;
pub use question::{Question, StepAsked};
pub use refusal::Refusal;
pub use register::{Cell, Reg};
pub use request::Request;
pub use value::Val;
