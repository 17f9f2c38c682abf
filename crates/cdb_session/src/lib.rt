//! Sessions at a prompt or behind a pipe: each line has its response before the next is read. A session goes on over
//! whatever carries its commands out, a control of its own or one that is shared, and answers what a line asks of the
//! run by whoever knows such a run.
//!
//! ```text
//! let mut console = Streams::new(Input::new(rt.reader()), Output::new(io::writer(rt)), files);
//! let outcome = debug::<R, A, _>(rt.alloc(), setup, b"> ", &mut console);
//! ```
#![tactic(auto)]

mod alone;
mod answers;
mod caller;
mod console;
mod due;
mod feed;
mod greeting;
mod help;
mod inquiry;
pub mod laws;
mod repl;
mod request;
mod response;
mod session;
mod shown;
mod streams;
mod style;
mod topic;
mod typed;
mod unfinished;

pub use alone::{begin, debug};
pub use answers::{Answers, answer_in, answer_of};
pub use caller::{Caller, News};
pub use console::{Console, write_all};
pub use greeting::{greeting_at, greeting_text};
pub use help::{BESIDES, OTHERS, SEATS};
pub use inquiry::{FileName, Inquiry};
pub use repl::run;
pub use request::{FaultyLine, Request, request_of};
pub use streams::{NewFiles, Streams};
pub use style::Style;
pub use topic::Topic;
pub use unfinished::{cut, hold};
