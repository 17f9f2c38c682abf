//! A process as it is shown.

use crate::name::Proc;
use crate::value::Val;

/// A process as it is shown.
#[derive(Clone, Copy, PartialEq, Eq)]
pub struct ProcView {
    pub p: Proc,
    /// Whether it runs Alpha; else it runs the leader-based algorithm.
    pub alpha: bool,
    pub place: u8,
    pub round: u32,
    pub alive: bool,
    /// How many of its steps stand.
    pub steps: u32,
    /// How many of its queries stand.
    pub queries: u32,
    pub decision: Option<Val>,
}
