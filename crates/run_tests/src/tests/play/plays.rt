//! Plays whose readers and writers fail, and the greatest script.

use super::{Halting, MAJORITY, Memory, ONE_PROCESS, writer};
use cdb_any_run::AnyRun;
use cdb_base::limits::MAX_BYTES;
use cdb_play::play;
use cdb_streams::{Bytes, Input, Output, PlayFault, Source};
use std::alloc::{AllocError, Global};
use std::process::Abort;

/// The longest of the worked examples: a rollback of twenty steps, and twenty redos.
pub const SCRIPT: &str = "auto 1
auto 1
auto 1
auto 1
auto 2
auto 2
auto 2
auto 2
auto 2
auto 2
auto 2
auto 2
auto 1
auto 1
auto 1
auto 1
auto 1
auto 1
auto 1
auto 2
auto 2
auto 2
auto 2
decisions
rollback 1 2
show history
redo
redo
redo
redo
redo
redo
redo
redo
redo
redo
redo
redo
redo
redo
redo
redo
redo
redo
redo
redo
decisions
show history
";

pub const TRANSCRIPT: &str = "1.1 query 1
1.2 send 1#1
1.3 recv 1#1
refused 12 Idle
2.1 recv 1#1
2.2 query 1
2.3 send 2#1
2.4 recv 2#1
2.5 local
2.6 send 2#2
2.7 recv 2#2
refused 12 Idle
1.4 recv 2#1
1.5 recv 2#2
1.6 local
1.7 send 1#2
1.8 recv 1#2
1.9 local
1.10 send 1#3 decides 5
2.8 recv 1#2
2.9 recv 1#3
2.10 learn
2.11 send 2#3 decides 5
decisions 1=5 2=5
rolled back 20
1.1 query 1
redone 1.2 send 1#1
redone 1.3 recv 1#1
redone 2.1 recv 1#1
redone 2.2 query 1
redone 2.3 send 2#1
redone 2.4 recv 2#1
redone 2.5 local
redone 2.6 send 2#2
redone 2.7 recv 2#2
redone 1.4 recv 2#1
redone 1.5 recv 2#2
redone 1.6 local
redone 1.7 send 1#2
redone 1.8 recv 1#2
redone 1.9 local
redone 1.10 send 1#3 decides 5
redone 2.8 recv 1#2
redone 2.9 recv 1#3
redone 2.10 learn
redone 2.11 send 2#3 decides 5
decisions 1=5 2=5
1.1 query 1
1.2 send 1#1
1.3 recv 1#1
2.1 recv 1#1
2.2 query 1
2.3 send 2#1
2.4 recv 2#1
2.5 local
2.6 send 2#2
2.7 recv 2#2
1.4 recv 2#1
1.5 recv 2#2
1.6 local
1.7 send 1#2
1.8 recv 1#2
1.9 local
1.10 send 1#3
2.8 recv 1#2
2.9 recv 1#3
2.10 learn
2.11 send 2#3
";

/// Plays a script to a writer over memory.
pub fn play_to(
    alloc: Global,
    setup: &str,
    source: &mut impl Source,
    out: &mut Memory,
) -> Result<(), PlayFault> {
    play::<AnyRun, _, _>(alloc, setup.as_bytes(), source, out)
}

/// A reader of two lines that fails after this many good calls.
fn reader(good_calls: usize) -> Halting<'static> {
    Halting {
        rest: b"auto 1\nredo",
        good_calls,
        failures: 0,
    }
}

/// Plays two lines from a reader that fails after this many good calls, this many times, and compares what is written.
fn check_reader<R: Abort + AllocGlobal>(rt: &R, good_calls: usize, failures: u64, text: &str) {
    let mut source = reader(good_calls);
    let mut out = writer(rt, 1_000, usize::MAX);
    let played = play_to(rt.alloc(), ONE_PROCESS, &mut source, &mut out);
    assert_eq!(rt; played.err(), (failures > 0).then_some(PlayFault::Read));
    assert_eq!(rt; source.failures, failures);
    assert_eq!(rt; out.held.as_slice(), text.as_bytes());
}

#[test]
fn a_reader_fails_at_each_call_or_comes_to_its_end(rt: HostRuntime) {
    // The script's 11 bytes come in three calls, and a fourth finds the end.
    for good_calls in 0..4 {
        check_reader(&rt, good_calls, 1, "");
    }
    check_reader(&rt, 4, 0, "1.1 query 1\nrefused 14 NothingToRedo\n");
}

/// Plays the longest example to this writer.
fn play_longest(alloc: Global, out: &mut Memory) -> Result<(), PlayFault> {
    let mut source = Bytes::new(SCRIPT.as_bytes());
    play_to(alloc, MAJORITY, &mut source, out)
}

/// Plays the longest example to a writer that fails, or takes none, after this many good calls of seven bytes.
fn check_writer<R: Abort + AllocGlobal>(rt: &R, good_calls: usize, takes_none: bool) {
    let mut out = writer(rt, 7, good_calls);
    out.takes_none = takes_none;
    let played = play_longest(rt.alloc(), &mut out);
    assert_eq!(rt; played, Err(PlayFault::Write), "after {good_calls} calls");
    is_beginning(rt, &out, good_calls, TRANSCRIPT);
}

/// Compares what a writer took before it failed once: seven bytes for each good call.
pub fn is_beginning(rt: &impl Abort, out: &Memory, good_calls: usize, text: &str) {
    assert_eq!(rt; out.failures, 1);
    assert!(rt; good_calls < 1_000);
    assert_eq!(rt; out.held.len(), 7 * good_calls);
    assert!(rt; text.as_bytes().starts_with(out.held.as_slice()));
}

#[test]
fn a_writer_fails_or_takes_none_at_each_call(rt: HostRuntime) {
    // Of 1,049 bytes, seven are taken a call.
    for good_calls in 0..150 {
        check_writer(&rt, good_calls, false);
        check_writer(&rt, good_calls, true);
    }
}

#[test]
fn a_writer_may_take_few_bytes_a_call(rt: HostRuntime) {
    for most in &[1, 2, 7] {
        let mut out = writer(&rt, *most, usize::MAX);
        let played = play_longest(rt.alloc(), &mut out);
        assert_eq!(rt; played, Ok(()), "{most} bytes a call");
        assert_eq!(rt; out.held.as_slice(), TRANSCRIPT.as_bytes());
    }
}

#[test]
fn a_play_over_a_reader_and_a_writer_of_std(rt: HostRuntime) {
    let mut source = Input::new(SCRIPT.as_bytes());
    let mut out = Output::new(Vec::new(rt.alloc()));
    let played = play::<AnyRun, _, _>(rt.alloc(), MAJORITY.as_bytes(), &mut source, &mut out);
    assert_eq!(rt; played, Ok(()));
    assert_eq!(rt; out.into_inner().as_slice(), TRANSCRIPT.as_bytes());
}

/// As many commands as a script has room for, and one.
fn greatest_script(alloc: Global) -> Result<String, AllocError> {
    let mut script = String::new(alloc);
    for _ in 0..149_796 {
        script.push_str("forget\n")?;
    }
    script.push_str("redo")?;
    Ok(script)
}

/// Plays the greatest script.
fn play_greatest<R: Abort + AllocGlobal>(rt: &R, out: &mut Memory) {
    let script = greatest_script(rt.alloc()).expect(rt, "a script");
    assert_eq!(rt; script.len(), MAX_BYTES);
    let mut source = Bytes::new(script.as_bytes());
    let played = play_to(rt.alloc(), ONE_PROCESS, &mut source, out);
    assert_eq!(rt; played, Ok(()));
}

#[test]
fn the_replies_to_the_greatest_script_are_written_in_21_calls(rt: HostRuntime) {
    let mut out = writer(&rt, MAX_BYTES, usize::MAX);
    play_greatest(&rt, &mut out);
    // Each `forgot 0`, and a refusal.
    assert_eq!(&rt; out.held.len(), 1_348_189);
    // 20 whole pieces of 65,536 bytes, and the rest.
    assert_eq!(&rt; out.good_calls, usize::MAX - 21);
}
