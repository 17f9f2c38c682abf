//! Out of memory in a play and in a race: nothing of a short transcript was written, and the same call with memory
//! writes it all. In a session: it ends there, with what came before, and its next calls have the replies as if nothing
//! had happened. To see it, let each allocation of these tests fail in turn.

ghost use Rattle.std.specs.Prelude.{IfOk};
ghost use Rattle.cdb_setup.specs.Format.{Encodes};

use super::pair::{OPEN, Pair, say};
use super::plays::play_to;
use super::sessions::ends_so;
use super::{MAJORITY, Memory, ONE_PROCESS};
use cdb_any_run::AnyRun;
use cdb_control::{Command, Reply};
use cdb_play::race;
use cdb_setup::{Setup, SetupFault};
use cdb_shared::End;
use cdb_streams::{Bytes, PlayFault, RaceFault, fits};
use std::alloc::{AllocError, Global};
use std::process::Abort;
use std::sync::Wait;
use std::thread::Threads;

/// More bytes than each text here has.
const ROOM: usize = 1_000;

const SCRIPT: &str = "auto 1\nstep 1 go\nauto 2\nundo 1 2\nundo 2 1\nundo 1 2\nredo\nshow mail\n";

const TRANSCRIPT: &str = "1.1 query 1
1.2 send 1#1
2.1 recv 1#1
refused 11 NeededBy 2.1
undone 2.1 recv 1#1
undone 1.2 send 1#1
redone 1.2 send 1#1
to 1 1#1 p1 1 5 1
to 2 1#1 p1 1 5 1
";

/// Two seats: the process, which is never driven, and the script.
const RACE: &str = "seat 2
1.1 query 1
refused 14 NothingToRedo
decisions none
decisions agree
";

/// Memory for the text, asked for once more where an allocation fails.
fn room_for_text(alloc: Global) -> Result<Vec<u8>, AllocError> {
    match Vec::with_capacity(alloc, ROOM) {
        Ok(held) => Ok(held),
        Err(_) => Vec::with_capacity(alloc, ROOM),
    }
}

/// A writer that needs no more memory.
fn writer_with_room(alloc: Global) -> Result<Memory, AllocError> {
    Ok(Memory {
        held: room_for_text(alloc)?,
        most: ROOM,
        good_calls: usize::MAX,
        takes_none: false,
        failures: 0,
    })
}

/// Plays the script.
fn play_once(alloc: Global, out: &mut Memory) -> Result<(), PlayFault> {
    let mut script = Bytes::new(SCRIPT.as_bytes());
    play_to(alloc, MAJORITY, &mut script, out)
}

/// Plays the script, and once more where memory was out, which has written nothing.
fn play_at_last<R: Abort + AllocGlobal>(rt: &R, out: &mut Memory) -> Result<(), PlayFault> {
    let Err(fault) = play_once(rt.alloc(), out) else {
        return Ok(());
    };
    assert!(rt; matches!(fault, PlayFault::NoMemory(_)));
    assert_eq!(rt; out.held.len(), 0);
    play_once(rt.alloc(), out)
}

#[test]
fn a_play_without_memory(rt: HostRuntime) {
    let mut out = writer_with_room(rt.alloc()).expect(&rt, "room");
    assert_eq!(&rt; play_at_last(&rt, &mut out), Ok(()));
    assert_eq!(&rt; str::from_utf8(out.held.as_slice()), Ok(TRANSCRIPT));
}

/// The scripts of the race, made once more where an allocation fails.
fn scripts_of_race(alloc: Global) -> Result<Vec<Vec<u8>>, AllocError> {
    let script = match Vec::from_slice(alloc, b"auto 1\nredo\n") {
        Ok(script) => script,
        Err(_) => Vec::from_slice(alloc, b"auto 1\nredo\n")?,
    };
    let mut scripts = match Vec::with_capacity(alloc, 1) {
        Ok(scripts) => scripts,
        Err(_) => Vec::with_capacity(alloc, 1)?,
    };
    scripts.push(script)?;
    Ok(scripts)
}

/// The setup, read once more where an allocation fails.
fn setup_at_last(alloc: Global, text: &[u8]) -> Result<Setup, SetupFault>
    ensures { IfOk result (λ setup. Encodes text.now setup) }
{
    match Setup::read(alloc, text) {
        Ok(setup) => Ok(setup),
        Err(_) => Setup::read(alloc, text),
    }
}

/// Runs the race, where it has seats enough.
fn race_once<R: Threads + Wait + Sync + AllocGlobal>(
    rt: &R,
    setup: &[u8],
    scripts: &[Vec<u8>],
    out: &mut Memory,
) -> Result<(), RaceFault> {
    let parts = setup_at_last(rt.alloc(), setup)?;
    if !fits(&parts, scripts.len()) {
        return Ok(());
    }
    race::<AnyRun, _, _>(rt, rt.alloc(), setup, 0, scripts, out)
}

/// Runs the race, and once more where memory was out or a thread was not started, which has written nothing.
fn race_at_last<R: Abort + Threads + Wait + Sync + AllocGlobal>(
    rt: &R,
    scripts: &[Vec<u8>],
    out: &mut Memory,
) -> Result<(), RaceFault> {
    let Err(fault) = race_once(rt, ONE_PROCESS.as_bytes(), scripts, out) else {
        return Ok(());
    };
    assert!(rt;
        matches!(
            fault,
            RaceFault::Play(PlayFault::NoMemory(_)) | RaceFault::Spawn(_)
        )
    );
    assert_eq!(rt; out.held.len(), 0);
    race_once(rt, ONE_PROCESS.as_bytes(), scripts, out)
}

#[test]
fn a_race_without_memory(rt: HostRuntime) {
    let mut out = writer_with_room(rt.alloc()).expect(&rt, "room");
    let scripts = scripts_of_race(rt.alloc()).expect(&rt, "scripts");
    assert_eq!(&rt; race_at_last(&rt, scripts.as_slice(), &mut out), Ok(()));
    assert_eq!(&rt; str::from_utf8(out.held.as_slice()), Ok(RACE));
}

/// Drives the process for eight turns, and for what is left of them if an allocation failed.
fn drive_at_last<R: Wait + AllocGlobal>(rt: &R, pair: Pair) -> (Pair, u32, End) {
    let (pair, count, end) = pair.drive(rt, OPEN, 8);
    if !matches!(end, End::NoMemory(_)) {
        return (pair, count, end);
    }
    let (pair, more, end) = pair.drive(rt, OPEN, 8u32.saturating_sub(count));
    (pair, count.saturating_add(more), end)
}

/// The commands behind the first that were answered.
fn left(commands: &[Command], answered: usize) -> &[Command] {
    commands.get(answered..).unwrap_or(&[])
}

/// Serves the commands, and those that are left if an allocation failed.
fn serve_at_last<R: Wait + Abort + AllocGlobal>(
    rt: &R,
    pair: Pair,
    commands: &[Command],
) -> (Pair, Vec<Reply>, End) {
    let (pair, replies, end) = pair.serve(rt, OPEN, commands);
    if !matches!(end, End::NoMemory(_)) {
        return (pair, replies, end);
    }
    let (pair, more, end) = pair.serve(rt, OPEN, left(commands, replies.len()));
    let all = joined(replies, more).expect(rt, "room");
    (pair, all, end)
}

/// The replies and those after them.
fn joined(replies: Vec<Reply>, more: Vec<Reply>) -> Result<Vec<Reply>, AllocError> {
    let mut all = replies;
    for reply in more {
        all.push(reply)?;
    }
    Ok(all)
}

#[test]
fn sessions_without_memory(rt: HostRuntime) {
    let (pair, count, end) = drive_at_last(&rt, Pair::after(&rt, 0));
    assert_eq!(&rt; (count, end), (8, End::All));
    let commands = [Command::Undo(1, 8), Command::Redo, Command::Decisions];
    let (pair, replies, end) = serve_at_last(&rt, pair.exchanged(), &commands);
    assert_eq!(&rt; end, End::All);
    let text = "undone 1.8 send 1#3\nredone 1.8 send 1#3 decides 7\ndecisions 1=7\n";
    say(&rt, replies, text);
    ends_so(&rt, pair, 11, &[1, 1, 1, 1, 1, 1, 1, 1, 2, 2, 2], 8);
}
