//! A session from its first line to its last.

ghost use Rattle.std.specs.Prelude.{◌≡◌, [], ◌-◌, ◌<◌, ◌^◌, ◌++◌};
ghost use Rattle.cdb_session.specs.Lines.{seen_by};
ghost use Rattle.cdb_session.specs.Replies.{first_place};
ghost use Rattle.cdb_session.specs.Served.{HoldsSession};
ghost use Rattle.cdb_session.specs.Moves.{WritesAll, says};
ghost use Rattle.cdb_session.specs.Styles.{MaySit, Onward};
ghost use Rattle.cdb_session.specs.Unfinished.{RespondsToLast};

use crate::caller::Caller;
use crate::console::{Console, write_all};
use crate::feed::{feed, respond_to_line};
use crate::session::Session;
use crate::style::Style;
use cdb_streams::{Failed, PlayFault};
use std::alloc::Global;

/// How many bytes are asked for at a time.
const PIECE: usize = 4096;

/// The most bytes that a session reads.
const MOST_INPUT: u64 = 1 << 63;

/// Answers a last line that has not ended, if there is one.
#[tactic(auto, using(crate::proofs::CallChain::calls_in_order))]
fn respond_to_last<C: Caller, T: Console>(
    alloc: Global,
    style: &Style<'_>,
    session: &mut Session<C>,
    unfinished: &mut Vec<u8>,
    console: &mut T,
) -> Result<(), PlayFault>
    requires sits { MaySit style.now (C.seats session.old.caller) session.old.place.seat }
    requires lines { session.old.place.lines < 2 ^ 64 - 1 }
    ensures last { RespondsToLast C.answers style.now result (T.known console.old) (T.known console.new)
        (seen_by C.part session.old) (seen_by C.part session.new) unfinished.old.items }
    ensures later { Onward C.later session.old.caller session.new.caller }
{
    if unfinished.is_empty() {
        return Ok(());
    }
    respond_to_line(alloc, style, session, unfinished, console)?;
    Ok(())
}

/// Answers the lines one after the other, from the first one on, up to `quit` or the end of the input, and hands the
/// caller back. Of what the caller's journal has, the session is what comes to it. The greeting is shown first, and the
/// prompt before each line. The end of the input ends the session too, and so do 2^63 bytes. After `Read` each line
/// that has ended has its response, after `Write` what was written is a beginning of the responses, and after
/// `NoMemory` it is the responses to a beginning of the lines.
pub fn run<C: Caller, T: Console>(
    alloc: Global,
    style: &Style<'_>,
    caller: C,
    console: &mut T,
) -> (C, Result<(), PlayFault>)
    requires sits { MaySit style.now (C.seats caller) style.now.first }
    ensures session { HoldsSession C.answers style.now (C.part caller) (C.part result.0) result.1
        (T.known console.old) (T.known console.new) }
    ensures later { Onward C.later caller result.0 }
{
    let mut session = Session::new(caller, style);
    let mut unfinished = Vec::new(alloc);
    let outcome = run_from_first(alloc, style, &mut session, &mut unfinished, console);
    let Session { caller, .. } = session;
    (caller, outcome)
}

/// Shows the greeting and the first prompt. It takes no memory.
fn write_opening<T: Console>(style: &Style<'_>, console: &mut T) -> Result<(), Failed>
    ensures { WritesAll result (T.known console.old) (T.known console.new)
        (says (style.now.greeting ++ style.now.prompt)) }
{
    write_all(console, style.greeting)?;
    write_all(console, style.number)?;
    write_all(console, style.prompt)
}

/// Answers the lines as `run` does, and holds in `unfinished`, at first empty, what was read of the next line.
#[tactic(auto, using(crate::proofs::CallChain::calls_in_order))]
fn run_from_first<C: Caller, T: Console>(
    alloc: Global,
    style: &Style<'_>,
    session: &mut Session<C>,
    unfinished: &mut Vec<u8>,
    console: &mut T,
) -> Result<(), PlayFault>
    requires empty { unfinished.old.items ≡ [] }
    requires sits { MaySit style.now (C.seats session.old.caller) session.old.place.seat }
    requires first { session.old.place ≡ first_place style.now }
    ensures all { HoldsSession C.answers style.now (C.part session.old.caller) (C.part session.new.caller) result
        (T.known console.old) (T.known console.new) }
    ensures later { Onward C.later session.old.caller session.new.caller }
{
    let Ok(()) = write_opening(style, console) else {
        return Err(PlayFault::Write);
    };
    let mut buffer = [0u8; PIECE];
    let mut read = 0u64;
    while read < MOST_INPUT {
        let Ok(count) = console.read(&mut buffer) else {
            return Err(PlayFault::Read);
        };
        if count == 0 {
            return respond_to_last(alloc, style, session, unfinished, console);
        }
        read += count as u64;
        if feed(alloc, style, session, unfinished, console, &buffer[..count])? {
            return Ok(());
        }
    }
    respond_to_last(alloc, style, session, unfinished, console)
}
