//! What the program is asked to do.

use crate::question::{Question, StepAsked};

/// What the program is asked to do. Setups, scripts and journals are named by their files.
#[derive(Drop)]
pub enum Request<'a> {
    /// Plays the script on standard input, on one process that proposes 7.
    Script,
    /// Plays a script on a run of a setup.
    Play {
        setup: &'a str,
        script: &'a str,
    },
    /// Runs a race of scripts on a run of a setup, with up to 99,999 turns for each process.
    Race {
        setup: &'a str,
        turns: u32,
        scripts: Vec<&'a str>,
    },
    /// Answers a question of the run that a script leaves on a setup; the numbers of a step are 1 to 999,999.
    Ask {
        setup: &'a str,
        script: &'a str,
        question: Question,
    },
    /// Draws the run after each command of a script that changed it, on a setup, each into a file of this folder, with
    /// this number of columns to a row. A step is refused.
    Frames {
        setup: &'a str,
        script: &'a str,
        folder: &'a str,
        columns: u32,
        step: Option<StepAsked>,
    },
    /// Holds a session for each seat, a terminal device or `IN:OUT`, over one run of a setup; without seats one session
    /// here. They go on from the journal of the one name, if there is one, and their journal is kept meanwhile in the
    /// file of the next name, and a page of the run in that of the last, where these are there.
    Debug {
        setup: &'a str,
        seats: Vec<&'a str>,
        from: Option<&'a str>,
        journal: Option<&'a str>,
        page: Option<&'a str>,
    },
    /// Plays a journal again on a run of a setup.
    Replay {
        setup: &'a str,
        journal: &'a str,
    },
    /// Searches for a run of a setup in which the goal of this word holds, with this seed and at most so many walks,
    /// both 1 to 999,999.
    Search {
        setup: &'a str,
        goal: &'a str,
        seed: u32,
        walks: u32,
    },
    /// Makes a script small on a run of a setup, as long as the goal of this word holds.
    Shrink {
        setup: &'a str,
        script: &'a str,
        goal: &'a str,
    },
    /// Tells whether two scripts leave the same run on a setup.
    Same {
        setup: &'a str,
        first: &'a str,
        second: &'a str,
    },
}
