//! One crate for both, since to read what a test stands on takes longer than to prove most tests.

mod play;
mod run;
