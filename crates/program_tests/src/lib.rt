//! Sessions, command lines, and requests over files and streams in memory, each call of which fails in turn.
#![tactic(auto)]

#[cfg(test)]
mod tests;
