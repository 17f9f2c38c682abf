//! Whether two scripts leave the same run, and else what tells their runs apart. The functions of `laws` do nothing:
//! the contract of each is the law.
//!
//! ```text
//! let is_same = same::<AnyRun, _>(alloc, setup, first, second, &mut output)?;
//! ```
#![tactic(auto)]

mod alone;
mod compare;
pub mod laws;
mod order;
mod runs;
mod text;
mod writes;

pub use compare::{Comparison, Which};
pub use order::numbered;
pub use runs::{compare_runs, history_of};
pub use writes::same;
