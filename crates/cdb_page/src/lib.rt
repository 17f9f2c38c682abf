//! The page of a run: one file that a browser opens, with the picture of the run and what its script needs of each
//! event. The functions of `laws` do nothing: the contract of each is the law.
//!
//! ```text
//! let text = page_of_few(alloc, &run, Refresh::Never)?;
//! ```
#![tactic(auto)]

mod entries;
pub mod laws;
mod links;
mod live;
mod page;
pub mod parts;
mod text;

pub use live::{LivePage, Rewritten};
pub use page::page_of_few;
