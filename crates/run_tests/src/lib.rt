//! Runs of both algorithms and what stands on them, up to plays and races: calls that no command makes, calls without
//! memory, threads, and readers and writers that fail. What a script can show is in the worked examples of `tests/`,
//! and undo and rollback against a replay in `tools/twins`.
#![tactic(auto)]

#[cfg(test)]
mod tests;
