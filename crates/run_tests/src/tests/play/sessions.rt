//! Sessions of two seats, how they end, and a race of a process and a script.

use super::pair::{Before, OPEN, Pair, ends_with_seats, say, try_setup};
use cdb_any_run::AnyRun;
use cdb_control::{Act, Command};
use cdb_race::{Raced, Script, race};
use cdb_setup::Setup;
use cdb_shared::End;
use cdb_streams::RaceFault;
use std::alloc::{AllocError, Global};
use std::process::Abort;
use std::sync::Wait;
use std::thread::Threads;

/// Calls a command from the first seat, compares the text of the reply, and exchanges the seats once they met.
fn told<R: Wait + Abort + AllocGlobal>(rt: &R, pair: Pair, command: Command, text: &str) -> Pair {
    pair.call(rt, command, text).meet(rt).exchanged()
}

/// Compares the number of entries of the journal, the seats of the last ones, and how many events stand.
pub fn ends_so<R: Wait + Abort + AllocGlobal>(
    rt: &R,
    pair: Pair,
    entries: usize,
    seats: &[u8],
    events: usize,
) {
    let control = pair.finish(rt);
    assert_eq!(rt; control.journal().len(), entries);
    assert!(rt; ends_with_seats(control.journal(), seats));
    assert_eq!(rt; control.run().history().len(), events);
    control.close();
}

#[test]
fn each_seat_redoes_what_it_undid(rt: HostRuntime) {
    let pair = Pair::after(&rt, 0);
    let query = Command::Step(1, Act::Query(None));
    let pair = told(&rt, pair, query, "1.1 query 1\n");
    let pair = told(&rt, pair, Command::Undo(1, 1), "undone 1.1 query 1\n");
    let pair = told(&rt, pair, Command::Redo, "refused 14 NothingToRedo\n");
    let pair = told(&rt, pair, Command::Redo, "redone 1.1 query 1\n");
    assert_eq!(&rt; pair.numbers(), (1, 2));
    ends_so(&rt, pair, 4, &[1, 2, 1, 2], 1);
}

/// How many calls a driven process makes, and how that ends.
fn driven<R: Wait + Abort + AllocGlobal>(rt: &R, turns: u32, stop: u32) -> (u32, End) {
    let (pair, count, end) = Pair::after(rt, 0).drive(rt, stop, turns);
    pair.end(rt);
    (count, end)
}

#[test]
fn a_driven_process_ends_done_or_after_its_turns_or_at_the_gate(rt: HostRuntime) {
    assert_eq!(&rt; driven(&rt, 50, OPEN), (9, End::Done));
    assert_eq!(&rt; driven(&rt, 9, OPEN), (9, End::Done));
    assert_eq!(&rt; driven(&rt, 8, OPEN), (8, End::All));
    assert_eq!(&rt; driven(&rt, 8, 2), (1, End::Stopped));
}

#[test]
fn a_gate_stops_one_session_alone(rt: HostRuntime) {
    let commands = [Command::Auto(1), Command::Decisions];
    let (pair, replies, end) = Pair::after(&rt, 0).serve(&rt, 2, &commands);
    say(&rt, replies, "1.1 query 1\n");
    assert_eq!(&rt; end, End::Stopped);
    let (pair, replies, end) = pair.exchanged().serve(&rt, OPEN, &commands);
    say(&rt, replies, "1.2 send 1#1\ndecisions none\n");
    assert_eq!(&rt; end, End::All);
    pair.end(&rt);
}

/// Serves the second seat with commands where the journal has room for one entry, and then drives the process from
/// there, after which this many events stand.
fn overfill<R: Wait + Abort + AllocGlobal>(
    rt: &R,
    commands: &[Command],
    text: &str,
    events: usize,
) {
    let pair = Pair::after(rt, 999_998).exchanged();
    let (pair, replies, end) = pair.serve(rt, OPEN, commands);
    say(rt, replies, text);
    assert_eq!(rt; end, End::JournalFull);
    let (pair, count, end) = pair.drive(rt, OPEN, 8);
    assert_eq!(rt; (count, end), (0, End::JournalFull));
    ends_so(rt, pair, 999_999, &[1, 2], events);
}

#[test]
fn a_session_ends_where_the_journal_is_full(rt: HostRuntime) {
    let drives = [Command::Auto(1), Command::Auto(1)];
    overfill(&rt, &drives, "1.1 query 1\n", 1);
    let forgets = [Command::Forget, Command::Forget];
    overfill(&rt, &forgets, "forgot 0\n", 0);
}

/// How many entries the journal of a race has, how many events stand, and how many replies there are to scripts.
fn counts(raced: &Raced<AnyRun>) -> (usize, usize, usize) {
    let mut replies = 0usize;
    for of_seat in raced.replies.as_slice() {
        replies = replies.saturating_add(of_seat.len());
    }
    let events = raced.control.run().history().len();
    (raced.control.journal().len(), events, replies)
}

/// Races a process for eight turns and a script. Both gates pass all calls.
fn raced<R: Threads + Wait + Sync + Abort + AllocGlobal>(
    rt: &R,
    setup: Setup,
    script: Script,
    gates: Vec<Before>,
) -> Result<(usize, usize, usize), RaceFault> {
    assert!(rt; setup.n() == 1 && gates.len() == 2);
    let raced = race::<AnyRun, _, _>(rt, rt.alloc(), setup, 8, &[script], gates)?;
    let found = counts(&raced);
    raced.close();
    Ok(found)
}

/// A script of one command.
fn script(alloc: Global) -> Result<Script, AllocError> {
    let commands = Vec::from_slice(alloc, &[Command::Decisions])?;
    Ok(Script::new(commands))
}

/// How a race of a process and a script ends whose gates pass all calls before these.
fn raced_up_to<R: Threads + Wait + Sync + Abort + AllocGlobal>(
    rt: &R,
    process: u32,
    script_call: u32,
) -> Result<(usize, usize, usize), RaceFault> {
    let setup = try_setup(rt.alloc()).expect(rt, "a setup");
    let script = script(rt.alloc()).expect(rt, "a script");
    let gates = vec![in rt.alloc(); Before(process), Before(script_call)].expect(rt, "gates");
    raced(rt, setup, script, gates)
}

#[test]
fn a_race_leaves_the_final_journal_and_the_replies(rt: HostRuntime) {
    assert_eq!(&rt; raced_up_to(&rt, OPEN, OPEN), Ok((9, 8, 1)));
}

#[test]
fn a_race_that_a_gate_stops_names_the_least_seat_that_was_stopped(rt: HostRuntime) {
    assert_eq!(&rt; raced_up_to(&rt, OPEN, 1), Err(RaceFault::Stopped(2)));
    assert_eq!(&rt; raced_up_to(&rt, 3, OPEN), Err(RaceFault::Stopped(1)));
    assert_eq!(&rt; raced_up_to(&rt, 3, 1), Err(RaceFault::Stopped(1)));
    assert_eq!(&rt; raced_up_to(&rt, OPEN, 2), Ok((9, 8, 1)));
}
