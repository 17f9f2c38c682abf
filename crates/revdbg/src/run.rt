//! What the arguments ask for is done.

ghost use Rattle.std.specs.Prelude.{IfErr, IfOk, map, string_bytes};
ghost use Rattle.std.specs.IoError.{error_kind};
ghost use Rattle.cdb_base.specs.Requests.{texts};
ghost use Rattle.revdbg.specs.Requested.{IsAskedBy, IsUnread, PerformsOne, unread_of};

use crate::requested::{Unread, action_of, asked_in, report_of, texts_of};
use cdb_program::{Files, World, perform};
use cdb_streams::{Sink, Source};
use std::alloc::Global;
use std::io;
use std::sync::Wait;
use std::thread::Threads;
use std::time::Clock;

/// Performs what arguments with these texts ask for, as `begin` does.
fn run<
    R: Threads + Wait + Clock + Sync,
    F: Files + Drop,
    I: Source + Drop,
    O: Sink + Drop,
    E: Sink + Drop,
>(
    threads: &R,
    alloc: Global,
    prompt: &str,
    read: &Result<Vec<&str>, Unread>,
    world: &mut World<F, I, O, E>,
) -> u8
    ensures asked { IfOk read.now (λ found. PerformsOne
        (IsAskedBy prompt.now (texts found.items)) world.old world.new result) }
    ensures unread { IfErr read.now (λ reason. PerformsOne
        (IsUnread reason) world.old world.new result) }
{
    match asked_in(alloc, read) {
        Ok(request) => perform(threads, alloc, action_of(&request, &*prompt), world),
        Err(error) => perform(threads, alloc, report_of(&error), world),
    }
}

/// Performs what the arguments ask for, as they were read from the system, or reports that they could not be read; and
/// returns the status with which the program ends. A session shows this prompt before each line.
///
/// Promise: The request that is performed is what the arguments ask for; help and version are printed, what is wrong is
/// reported, also an argument that is no text; or memory was out.
pub fn begin<
    R: Threads + Wait + Clock + Sync,
    F: Files + Drop,
    I: Source + Drop,
    O: Sink + Drop,
    E: Sink + Drop,
>(
    threads: &R,
    alloc: Global,
    prompt: &str,
    words: io::Result<Vec<String>>,
    world: &mut World<F, I, O, E>,
) -> u8
    ensures asked { IfOk words (λ words. PerformsOne
        (IsAskedBy prompt.now (map string_bytes words.items)) world.old world.new result) }
    ensures unread { IfErr words (λ error. PerformsOne
        (IsUnread (unread_of (error_kind error))) world.old world.new result) }
{
    let read = texts_of(alloc, &words);
    run(threads, alloc, prompt, &read, world)
}
