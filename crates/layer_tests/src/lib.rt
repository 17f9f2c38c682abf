//! Worked examples of the layers below the run, on the public calls of each.
#![tactic(auto)]

#[cfg(test)]
mod tests;
