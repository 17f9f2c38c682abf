//! Tests.

mod causal_twins;
mod dependence;
mod draws;
mod laws;
mod long_history;
mod processes;
mod records;
mod setups;
