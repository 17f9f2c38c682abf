//! Sessions of one seat.

use super::person::{Person, with_lines};
use cdb_any_run::AnyRun;
use cdb_program::Printed;
use cdb_session::debug;
use cdb_setup::SetupFault;
use cdb_streams::PlayFault;
use std::alloc::Global;
use std::process::Abort;

const ONE_PROCESS: &[u8] =
    b"{\"algorithm\":\"leader\",\"processes\":1,\"quorum\":1,\"inputs\":[7],\"oracle\":[[1]]}";

/// How the setup greets.
const GREETING: &str =
    "leader-based consensus, 1 process, quorum 1, no copy is lost; help lists the commands\n";

/// Lines with their responses.
const DIALOGUES: [(&[u8], &str); 4] = [
    (b"", ""),
    (b"quit", ""),
    (b"auto 1\nauto 1", "1.1 query 1\n1.2 send 1#1\n"),
    (
        b"auto 1\n\njump\nauto x\nredo 1\nundo 1\nauto 1\r\nauto 1\n",
        "1.1 query 1
line 3 fault 2 Word: a command is due, not 'jump'
line 4 fault 3 Number: a process is due, not 'x'
line 5 fault 4 Extra: nothing more is due, not '1'
line 6 fault 5 Missing: a step is due
1.2 send 1#1
1.3 recv 1#1
",
    ),
];

/// Holds a session at a prompt with someone.
fn hold(alloc: Global, console: &mut Person) -> Result<(), PlayFault> {
    debug::<AnyRun, Printed, _>(alloc, ONE_PROCESS, b"", b"> ", console)
}

/// Holds a session without a prompt, in which this many bytes come at a time.
fn check_responses<R: Abort + AllocGlobal>(rt: &R, lines: &'static [u8], said: &str, most: usize) {
    let mut console = with_lines(rt.alloc(), lines, most);
    let outcome = debug::<AnyRun, Printed, _>(rt.alloc(), ONE_PROCESS, b"", b"", &mut console);
    assert_eq!(rt; outcome, Ok(()));
    assert_eq!(rt; str::from_utf8(console.said.as_slice()), Ok(said));
}

#[test]
fn responses_are_the_same_however_few_bytes_come(rt: HostRuntime) {
    for (lines, said) in DIALOGUES {
        for most in [1, 3, 7, 10_000] {
            check_responses(&rt, lines, said, most);
        }
    }
}

/// 7 bytes a time are one line each; the greeting has 86 bytes, the responses have 12, 13, 50 and 52, and the prompt
/// has 2.
#[test]
fn each_line_is_answered_before_more_is_asked_for(rt: HostRuntime) {
    let mut console = with_lines(rt.alloc(), b"auto 1\nauto 1\njump 1\nquit..\n", 7);
    let outcome = hold(rt.alloc(), &mut console);
    assert_eq!(rt; outcome, Ok(()));
    has_said(
        &rt,
        &console,
        b"> 1.1 query 1\n> 1.2 send 1#1\n> line 3 fault 2 Word: a command is due, not 'jump'\n> line 4 fault 2 Word: a command is due, not 'quit..'\n> ",
        137,
    );
    assert_eq!(rt;
        console.asked_at.as_slice(),
        [88, 102, 117, 169, 223].as_slice()
    );
}

/// There are 12 bytes up to the end of the line `quit`.
#[test]
fn after_quit_no_more_is_asked_for(rt: HostRuntime) {
    let mut console = with_lines(rt.alloc(), b"auto 1\nquit\nauto 1\n", 1);
    let outcome = hold(rt.alloc(), &mut console);
    assert_eq!(rt; outcome, Ok(()));
    has_said(&rt, &console, b"> 1.1 query 1\n> ", 16);
    assert_eq!(rt; console.asked_at.len(), 12);
    assert_eq!(rt; console.rest, b"auto 1\n".as_slice());
}

#[test]
fn a_bad_setup_is_found_before_all_else(rt: HostRuntime) {
    let mut console = with_lines(rt.alloc(), b"auto 1\n", 7);
    let outcome = debug::<AnyRun, Printed, _>(rt.alloc(), b"[]", b"", b"> ", &mut console);
    assert_eq!(rt; outcome, Err(PlayFault::Setup(SetupFault::NotObject)));
    assert_eq!(rt; (console.said.len(), console.asked_at.len()), (0, 0));
}

const LINES: &[u8] = b"auto 1\njump 1\nauto 1\n";

const RESPONSES: &[u8] =
    b"> 1.1 query 1\n> line 2 fault 2 Word: a command is due, not 'jump'\n> 1.2 send 1#1\n> ";

/// Compares what was said with the greeting and the beginning of the responses, of this length.
fn has_said(rt: &impl Abort, console: &Person, responses: &[u8], length: usize) {
    let said = console.said.as_slice();
    assert!(rt; said.starts_with(GREETING.as_bytes()));
    let responded = &said[GREETING.len()..];
    assert_eq!(rt; responded.len(), length);
    assert!(rt; responses.starts_with(responded));
}

/// Lines are read one at a time, of which the one behind this many good reads can't be.
fn check_read<R: Abort + AllocGlobal>(rt: &R, good_reads: usize, length: usize) {
    let mut console = with_lines(rt.alloc(), LINES, 7);
    console.good_reads = good_reads;
    let outcome = hold(rt.alloc(), &mut console);
    assert_eq!(rt; outcome, Err(PlayFault::Read));
    has_said(rt, &console, RESPONSES, length);
    assert_eq!(rt; console.asked_at.len().checked_sub(1), Some(good_reads));
}

/// Beside the number of good reads stands how many bytes of the responses are written then.
#[test]
fn a_read_that_fails_ends_the_session(rt: HostRuntime) {
    for (good_reads, length) in [(0, 2), (1, 16), (2, 68), (3, 83)] {
        check_read(&rt, good_reads, length);
    }
}

/// Bytes are written one at a time, of which the one behind this many good writes can't be.
fn check_write<R: Abort + AllocGlobal>(rt: &R, good_writes: usize) {
    let mut console = with_lines(rt.alloc(), LINES, 1);
    console.good_writes = GREETING.len().saturating_add(good_writes);
    let outcome = hold(rt.alloc(), &mut console);
    assert_eq!(rt; outcome, Err(PlayFault::Write));
    has_said(rt, &console, RESPONSES, good_writes);
}

#[test]
fn a_write_that_fails_ends_the_session(rt: HostRuntime) {
    for good_writes in 0..83 {
        check_write(&rt, good_writes);
    }
}
