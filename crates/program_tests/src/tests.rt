//! Requests over files and streams in memory, each call of which fails in turn.

ghost use Rattle.std.specs.Prelude.{IsTrue};
ghost use Rattle.cdb_base.specs.Requests.{asked_for};
ghost use Rattle.cdb_program.specs.Requests.{HasTurns, MayPerform};

mod failures;
mod files;
mod one_seat;
mod person;
mod reading;
mod several_seats;
mod streams;

use cdb_base::Request;
use cdb_base::limits::MAX_TURNS;
use cdb_program::{Action, World, perform};
use cdb_session::Streams;
use files::{Folder, NoFiles};
use std::process::Abort;
use std::sync::Wait;
use std::thread::Threads;
use std::time::Clock;
use streams::{Reader, Writer};

/// Standard input: two lines, of which the last has no end.
const INPUT: &[u8] = b"auto 1\nredo";

/// How many calls go well: reads of files, reads of standard input, and writes of standard output and standard error.
#[derive(Clone, Copy)]
struct GoodCalls {
    files: usize,
    input: usize,
    output: usize,
    error: usize,
}

const ALL_GOOD: GoodCalls = GoodCalls {
    files: usize::MAX,
    input: usize::MAX,
    output: usize::MAX,
    error: usize::MAX,
};

/// How a request ended: the status, what was written, how many files were opened, and how many calls failed.
#[derive(Drop)]
struct Ended {
    status: u8,
    output: Vec<u8>,
    error: Vec<u8>,
    opened: usize,
    failures: u64,
}

/// Whether a race has no more turns than it may have.
fn has_turns(request: &Request<'_>) -> bool
    ensures { IsTrue result → HasTurns (asked_for request.now) }
{
    match request {
        Request::Race { turns, .. } => *turns <= MAX_TURNS,
        _ => true,
    }
}

/// Whether the action may be performed.
fn may_perform(action: Action<'_, '_>) -> bool
    ensures { IsTrue result → MayPerform action.entry }
{
    match action {
        Action::Perform { request, .. } => has_turns(request),
        _ => true,
    }
}

/// The action that performs a request.
fn action<'a, 'r>(request: &'a Request<'r>) -> Action<'a, 'r> {
    Action::Perform {
        request,
        prompt: "> ",
    }
}

/// Performs an action over the files of the tests and standard input, with this many good calls.
fn performed<R: Threads + Wait + Clock + Sync + Abort + AllocGlobal>(
    rt: &R,
    action: Action<'_, '_>,
    good: GoodCalls,
) -> Ended {
    assert!(rt; may_perform(action));
    let alloc = rt.alloc();
    let mut world = World {
        files: Folder::new(alloc, good.files),
        streams: Streams::new(
            Reader::new(INPUT, good.input),
            Writer::new(alloc, good.output),
            NoFiles,
        ),
        error: Writer::new(alloc, good.error),
    };
    let status = perform(rt, alloc, action, &mut world);
    let World {
        files,
        streams,
        error,
    } = world;
    let Streams { input, output, .. } = streams;
    let failures = files
        .failures
        .wrapping_add(input.failures)
        .wrapping_add(output.failures)
        .wrapping_add(error.failures);
    Ended {
        status,
        output: output.held,
        error: error.held,
        opened: files.opened.len(),
        failures,
    }
}
