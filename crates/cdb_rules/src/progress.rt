//! How far a process has come.

/// How far a process has come: its local state, whether it is alive, and how many of its steps and of
/// its queries stand.
#[derive(Drop)]
pub struct Progress<L: Drop> {
    pub local: L,
    pub alive: bool,
    pub steps: u32,
    pub queries: u32,
}
