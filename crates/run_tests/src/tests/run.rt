//! What the calls of a run return and show, and what the commands of a control do.

mod calls;
mod commands;
mod example;
mod laws;
mod memory;
mod room;
mod same;
mod scripts;
mod session;
mod setups;
mod spared;
mod texts;
mod views;
mod worked;
