//! revdbg: a causal reversible debugger for indulgent consensus.
#![tactic(auto)]

mod requested;
mod run;
mod seats;
mod system_files;

use cdb_program::World;
use cdb_session::Streams;
use cdb_streams::{Input, Output};
use run::begin;
use seats::{hint_at, prompt_at};
use std::io::{IsTerminal, Printer, Stderr, StdinLock};
use std::process::ExitCode;
use std::{env, io};
use system_files::{SystemFiles, SystemNewFiles};

/// The arguments of the command line, the program's name first.
fn words_of(rt: &HostRuntime) -> io::Result<Vec<String>> {
    let words = env::args(rt)?.collect(rt.alloc())?;
    Ok(words)
}

/// The system. What is printed and what is reported go to two types, so neither can be given for the other.
type SystemWorld<'a> = World<
    SystemFiles<'a>,
    Input<StdinLock<'a>>,
    Output<Printer<'a, HostRuntime>>,
    Output<Stderr>,
>;

/// The streams and the files of the system.
fn system_of<'a>(rt: &'a HostRuntime) -> SystemWorld<'a> {
    World {
        files: SystemFiles::new(rt),
        streams: Streams::new(
            Input::new(rt.reader()),
            Output::new(io::writer(rt)),
            SystemNewFiles::new(rt),
        ),
        error: Output::new(rt.stderr()),
    }
}

fn main(rt: HostRuntime) -> ExitCode {
    let mut world = system_of(&rt);
    let is_terminal = rt.stdin().is_terminal();
    let words = words_of(&rt);
    let _ = eprint!(&rt; "{}", hint_at(is_terminal, &words));
    let status = begin(&rt, rt.alloc(), prompt_at(is_terminal), words, &mut world);
    ExitCode::from(status)
}
