//! What the program does, and that it does it.

ghost use Rattle.std.specs.Prelude.{◌≡◌};
ghost use Rattle.cdb_base.specs.Requests.{asked_for, texts};
ghost use Rattle.cdb_program.specs.Beginnings.{named};
ghost use Rattle.cdb_program.specs.Requests.{Does, DrawsFrames, HasTurns, HeadlineHolds, IsDone, IsNoSession};
ghost use Rattle.cdb_program.specs.Requests.{MayPerform, Performs, PerformsAsked, PerformsSessions, PrintsText};

use crate::beginning::Names;
use crate::compares::compare_files;
use crate::debugs::debug_here;
use crate::fault::Fault;
use crate::files::Files;
use crate::frames::frame_files;
use crate::plays::{play_files, play_input};
use crate::questions::answer_files;
use crate::races::race_files;
use crate::replays::replay_files;
use crate::reports::report;
use crate::searches::{search_file, shrink_files};
use crate::seats::share;
use crate::world::World;
use cdb_any_run::AnyRun;
use cdb_base::{Request, StepAsked};
use cdb_control::laws;
use cdb_streams::{PlayFault, Sink, Source, write_all};
use std::alloc::Global;
use std::sync::Wait;
use std::thread::Threads;
use std::time::Clock;

/// What is reported where a step is asked for of frames.
const NO_STEP: &str = "--frames takes no P\n";

/// What the program does.
#[derive(Clone, Copy)]
pub enum Action<'a, 'r> {
    /// Performs this request; a session here has this prompt before each line.
    Perform {
        request: &'a Request<'r>,
        prompt: &'a str,
    },
    /// Writes a text to standard output.
    Print(&'a str),
    /// Does nothing, and reports this fault.
    Refuse(Fault<'a>),
}

/// Draws frames, which are of the whole run.
fn draw_frames<'a, F: Files + Drop, I: Source + Drop, O: Sink + Drop, E: Sink + Drop>(
    alloc: Global,
    setup: &'a str,
    script: &'a str,
    folder: &'a str,
    columns: u32,
    step: Option<StepAsked>,
    world: &mut World<F, I, O, E>,
) -> Result<(), Fault<'a>>
    ensures does { DrawsFrames setup.entry.now script.entry.now folder.entry.now columns step
        world.old world.new result }
    ensures error { world.new.error ≡ world.old.error }
    ensures saved { world.new.saved ≡ world.old.saved }
{
    match step {
        Some(_) => Err(Fault::Refused(NO_STEP)),
        None => frame_files(alloc, setup, script, folder, columns, world),
    }
}

/// Carries a request out that is not one of sessions, and reports nothing.
fn carry_out<
    'a,
    R: Threads + Wait + Clock + Sync,
    F: Files + Drop,
    I: Source + Drop,
    O: Sink + Drop,
    E: Sink + Drop,
>(
    threads: &R,
    alloc: Global,
    request: &'a Request<'a>,
    world: &mut World<F, I, O, E>,
) -> Result<(), Fault<'a>>
    requires turns { HasTurns (asked_for request.now) }
    requires other { IsNoSession (asked_for request.now) }
    ensures does { Does (asked_for request.entry.now) world.old world.new result }
    ensures error { world.new.error ≡ world.old.error }
    ensures saved { world.new.saved ≡ world.old.saved }
{
    match request {
        Request::Script => play_input(alloc, world),
        Request::Play { setup, script } => play_files(alloc, setup, script, world),
        Request::Race {
            setup,
            turns,
            scripts,
        } => race_files(threads, alloc, setup, *turns, scripts.as_slice(), world),
        Request::Ask {
            setup,
            script,
            question,
        } => answer_files(alloc, setup, script, *question, world),
        Request::Frames {
            setup,
            script,
            folder,
            columns,
            step,
        } => draw_frames(alloc, setup, script, folder, *columns, *step, world),
        Request::Debug { .. } => unreachable!(),
        Request::Replay { setup, journal } => replay_files(alloc, setup, journal, world),
        Request::Search {
            setup,
            goal,
            seed,
            walks,
        } => search_file(alloc, setup, goal, *seed, *walks, world),
        Request::Shrink {
            setup,
            script,
            goal,
        } => shrink_files(alloc, setup, script, goal, world),
        Request::Same {
            setup,
            first,
            second,
        } => compare_files(alloc, setup, first, second, world),
    }
}

/// Carries out a request that is not one of sessions, and reports on standard error how it ended.
fn perform_one<
    R: Threads + Wait + Clock + Sync,
    F: Files + Drop,
    I: Source + Drop,
    O: Sink + Drop,
    E: Sink + Drop,
>(threads: &R, alloc: Global, request: &Request<'_>, world: &mut World<F, I, O, E>) -> u8
    requires turns { HasTurns (asked_for request.now) }
    requires other { IsNoSession (asked_for request.now) }
    ensures done { IsDone (Does (asked_for request.now)) world.old world.new result }
    ensures saved { world.new.saved ≡ world.old.saved }
{
    let outcome = carry_out(threads, alloc, request, world);
    report(outcome, &mut world.error)
}

/// Holds sessions of these seats, or one here without seats, and reports on standard error what failed.
fn perform_sessions<
    R: Threads + Wait + Clock + Sync,
    F: Files + Drop,
    I: Source + Drop,
    O: Sink + Drop,
    E: Sink + Drop,
>(
    threads: &R,
    alloc: Global,
    names: Names<'_>,
    seats: &[&str],
    prompt: &str,
    world: &mut World<F, I, O, E>,
) -> u8
    ensures { PerformsSessions (named names.entry) prompt.now (texts seats.now) world.old world.new result }
{
    if seats.is_empty() {
        let debugged = debug_here(alloc, names, prompt, world);
        return report(debugged, &mut world.error);
    }
    match share(threads, alloc, names, seats, world) {
        Ok(status) => status,
        Err(fault) => report(Err(fault), &mut world.error),
    }
}

/// Performs a request, in which a session here has this prompt, and reports on standard error how it ended.
fn perform_request<
    R: Threads + Wait + Clock + Sync,
    F: Files + Drop,
    I: Source + Drop,
    O: Sink + Drop,
    E: Sink + Drop,
>(
    threads: &R,
    alloc: Global,
    request: &Request<'_>,
    prompt: &str,
    world: &mut World<F, I, O, E>,
) -> u8
    requires { HasTurns (asked_for request.now) }
    ensures { PerformsAsked prompt.now (asked_for request.now) world.old world.new result }
{
    match request {
        Request::Debug {
            setup,
            seats,
            from,
            journal,
            page,
        } => {
            let names = Names {
                setup,
                from: *from,
                journal: *journal,
                page: *page,
            };
            perform_sessions(threads, alloc, names, seats.as_slice(), prompt, world)
        }
        _ => perform_one(threads, alloc, request, world),
    }
}

/// Writes a text to standard output, and reports on standard error whether that failed.
fn print<F: Files + Drop, I: Source + Drop, O: Sink + Drop, E: Sink + Drop>(
    text: &str,
    world: &mut World<F, I, O, E>,
) -> u8
    ensures { IsDone (PrintsText text.now) world.old world.new result }
{
    let written = write_all(&mut world.streams.output, text.as_bytes());
    let printed = written.map_err(|_| Fault::Play(PlayFault::Write, ""));
    report(printed, &mut world.error)
}

/// Performs an action, reports on standard error how it ended, and returns the status with which the program ends: 0
/// where all went well, else 1 to 9. A fault has one line on standard error, but that two runs differ has none, which
/// standard output tells; and each seat that failed has one. Nothing else is written there.
///
/// Promise: A request reads the files that it names, in order and no others, up to the first that can't be read; its
/// text goes to standard output. How it ended is reported: nothing and status 0 where it is well, else the fault's
/// text, with the name of what can't be read, on standard error, and its status. The K-th session is held at the
/// seat of the K-th name, which its own thread opens. Whatever was played for it, the headline holds of its journal.
pub fn perform<
    R: Threads + Wait + Clock + Sync,
    F: Files + Drop,
    I: Source + Drop,
    O: Sink + Drop,
    E: Sink + Drop,
>(threads: &R, alloc: Global, action: Action<'_, '_>, world: &mut World<F, I, O, E>) -> u8
    requires { MayPerform action }
    ensures performs { Performs action.entry world.old world.new result }
    // Whatever was played for it, the headline holds of its journal.
    ensures headline { HeadlineHolds }
{
    laws::headline::<AnyRun>();
    match action {
        Action::Perform { request, prompt } => {
            perform_request(threads, alloc, request, prompt, world)
        }
        Action::Print(text) => print(text, world),
        Action::Refuse(fault) => report(Err(fault), &mut world.error),
    }
}
