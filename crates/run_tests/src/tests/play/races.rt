//! Races in real threads.

ghost use Rattle.std.specs.Prelude.{◌≡◌, ◌≤◌, IfOk, vec_len};

use super::plays::{SCRIPT, TRANSCRIPT, is_beginning};
use super::{MAJORITY, Memory, writer};
use cdb_any_run::AnyRun;
use cdb_play::{race_on, race_with};
use cdb_rules::Runs;
use cdb_setup::Setup;
use cdb_shared::{Gate, Seat};
use cdb_streams::{PlayFault, RaceFault, fits, race_status_of, write_race_fault};
use std::alloc::{AllocError, Global};
use std::process::Abort;
use std::sync::Wait;
use std::sync::atomic::{AtomicBool, Ordering};
use std::test::Fail;
use std::thread::{self, Threads};

/// This many scripts of this text.
fn scripts(alloc: Global, text: &str, count: usize) -> Result<Vec<Vec<u8>>, AllocError> {
    let mut scripts = Vec::new(alloc);
    for _ in 0..count {
        scripts.push(Vec::from_slice(alloc, text.as_bytes())?)?;
    }
    Ok(scripts)
}

/// Runs a race of two processes and one script.
fn race_of_one_script<R: Abort + Threads + Wait + Sync + AllocGlobal>(
    rt: &R,
    turns: u32,
    script: &str,
    out: &mut Memory,
) -> Result<(), RaceFault> {
    let scripts = scripts(rt.alloc(), script, 1).expect(rt, "scripts");
    let setup = Setup::read(rt.alloc(), MAJORITY.as_bytes()).expect(rt, "a setup");
    assert!(rt; fits(&setup, scripts.len()));
    race_on::<AnyRun, _, _>(rt, rt.alloc(), setup, turns, &scripts, out)
}

/// Runs a race that is written to a writer that fails after this many good calls of seven bytes.
fn check_writer<R: Abort + Threads + Wait + Sync + AllocGlobal>(
    rt: &R,
    good_calls: usize,
    text: &str,
) {
    let mut out = writer(rt, 7, good_calls);
    let raced = race_of_one_script(rt, 0, SCRIPT, &mut out);
    assert_eq!(rt;
        raced,
        Err(RaceFault::Play(PlayFault::Write)),
        "after {good_calls} calls"
    );
    is_beginning(rt, &out, good_calls, text);
}

/// What a race of the longest example writes.
fn text_of_race(alloc: Global) -> Result<String, AllocError> {
    format!(in alloc; "seat 3\n{TRANSCRIPT}decisions 1=5 2=5\ndecisions agree\n")
}

#[test]
fn a_writer_fails_at_each_call_of_a_race(rt: HostRuntime) {
    let text = text_of_race(rt.alloc()).expect(&rt, "a text");
    // Of 1,090 bytes, seven are taken a call.
    for good_calls in 0..156 {
        check_writer(&rt, good_calls, text.as_str());
    }
}

/// Runs a race whose script undoes a step and takes it again.
fn check_race<R: Abort + Threads + Wait + Sync + AllocGlobal>(rt: &R) {
    let mut out = writer(rt, 1_000, usize::MAX);
    let raced = race_of_one_script(rt, 50, "undo 2 1\nredo\n", &mut out);
    assert_eq!(rt; raced, Ok(()));
    assert!(rt; out.held.as_slice().ends_with(b"decisions agree\n"));
}

#[test]
fn two_hundred_races_agree(rt: HostRuntime) {
    for _ in 0..200 {
        check_race(&rt);
    }
}

/// A gate that, where it holds, lets call 2 go on only once the other seat's call 1 is answered.
#[derive(Drop)]
struct Crossing<'a> {
    mine: &'a AtomicBool,
    other: &'a AtomicBool,
    holds: bool,
}

impl Gate for Crossing<'_> {
    fn before<T: Runs>(&mut self, call: u32, _seat: &Seat<T>) -> bool {
        if !self.holds || call != 2 {
            return true;
        }
        for _ in 0..1_000_000_000u32 {
            if self.other.load(Ordering::SeqCst) {
                return true;
            }
            thread::yield_now();
        }
        false
    }

    fn after<T: Runs>(&mut self, call: u32, _seat: &Seat<T>) {
        if self.holds && call == 1 {
            self.mine.store(true, Ordering::SeqCst);
        }
    }
}

/// Four gates, of which those of the first two seats hold each other up, or those of the last two.
fn gates<'a>(
    alloc: Global,
    one: &'a AtomicBool,
    other: &'a AtomicBool,
    first: bool,
) -> Result<Vec<Crossing<'a>>, AllocError> {
    let mut gates = Vec::new(alloc);
    for holds in &[first, !first] {
        gates.push(Crossing {
            mine: one,
            other,
            holds: *holds,
        })?;
        gates.push(Crossing {
            mine: other,
            other: one,
            holds: *holds,
        })?;
    }
    Ok(gates)
}

/// The text of a race of two processes and two scripts, where the sessions of the first two seats or of the last two
/// hold each other up.
fn do_cross<R: Threads + Wait + Sync + AllocGlobal>(
    rt: &R,
    turns: u32,
    first: bool,
) -> Result<Vec<u8>, Fail> {
    let alloc = rt.alloc();
    let scripts = scripts(alloc, "decisions\ndecisions\n", 2)?;
    let (one, other) = (AtomicBool::new(false), AtomicBool::new(false));
    let gates = gates(alloc, &one, &other, first)?;
    let setup = MAJORITY.as_bytes();
    let parts = Setup::read(alloc, setup)?;
    let mut out = writer(rt, 1_000, usize::MAX);
    if !fits(&parts, scripts.len()) || gates.len() != usize::from(parts.n()) + scripts.len() {
        return Err(Fail::from("it has no seats enough"));
    }
    race_with::<AnyRun, _, _, _>(rt, alloc, setup, turns, scripts.as_slice(), gates, &mut out)?;
    Ok(out.held)
}

/// Compares the text of such a race. Two turns of each process are too few for a decision.
fn check_cross<R: Abort + Threads + Wait + Sync + AllocGlobal>(
    rt: &R,
    turns: u32,
    first: bool,
) -> Result<(), Fail> {
    let text = "seat 3\ndecisions none\ndecisions none\nseat 4\ndecisions none\ndecisions none
decisions none\ndecisions agree\n";
    let written = do_cross(rt, turns, first)?;
    assert_eq!(rt; str::from_utf8(written.as_slice()), Ok(text));
    Ok(())
}

#[test]
fn two_serves_cross(rt: HostRuntime) -> Result<(), Fail> {
    check_cross(&rt, 0, false)
}

#[test]
fn two_drives_cross(rt: HostRuntime) -> Result<(), Fail> {
    check_cross(&rt, 2, true)
}

#[test]
fn a_race_that_a_gate_stopped_has_no_thread(rt: HostRuntime) {
    let mut err = writer(&rt, 3, usize::MAX);
    assert_eq!(rt; write_race_fault(&RaceFault::Stopped(3), &mut err), Ok(()));
    assert_eq!(rt; err.held.as_slice(), b"no thread\n".as_slice());
    assert_eq!(rt; race_status_of(&RaceFault::Stopped(3)), 9);
}
