//! Sessions of several seats, from the text of their setup to what is written once they have ended.

ghost use Rattle.std.specs.Prelude.{◌≡◌, ◌≤◌, vec_len, IfOk, IfErr, OnErr};
ghost use Rattle.cdb_shared_session.specs.KeptOutcomes.{kept_outcome};
ghost use Rattle.cdb_shared_session.specs.Reported.{RunsSessions, IsFaultOfSessions};

use crate::endpoint::Opener;
use crate::keeping::Kept;
use crate::reports::{status_after, write_failures, write_journal};
use crate::threads::debug_seats;
use cdb_base::limits::MAX_SEATS;
use cdb_rules::Runs;
use cdb_session::{Answers, begin};
use cdb_streams::{OutputFault, RaceFault, Sink};
use std::alloc::Global;
use std::sync::Wait;
use std::thread::Threads;
use std::time::Clock;

/// How a journal was kept; without a file there is no fault.
fn outcome_of<J>(kept: &Option<Kept<J>>) -> Result<(), OutputFault>
    ensures { result ≡ kept_outcome kept.now }
{
    match kept {
        Some(kept) => kept.outcome,
        None => Ok(()),
    }
}

/// Holds sessions of as many seats as there are openers, from 1 to 64, over one run of the setup, which go on from a
/// journal of these seats, until all have ended; a journal without bytes has no entries;
/// each seat is opened in its own thread, and one that can't be opened has failed. Where there is a file, the journal
/// is kept in it meanwhile. Then the journal is written to the output, a line for each entry, and to the other output a
/// line for each seat that failed, and one where the journal could not be written or kept; these lines take no memory.
/// Returned is the status: 6 or 7 where the journal could not be written or kept, else that of the least seat that
/// failed, and 0 where none did; and with it the file, with how the journal was kept.
///
/// # Errors
/// `Setup`, `Line` and `ScriptTooLong` as of `begin`, and then no session was begun; `Spawn` where a thread can't be
/// started, and `NoMemory` where an allocation fails before the sessions have ended. Nothing was written to either
/// output.
///
/// Promise: That journal is written, `S LINE` for each entry, and a line for each seat that failed, which takes no
/// memory; the status is that of a journal that was not written, else of the least seat that failed.
pub fn debug_shared<
    R: Runs + Send,
    A: Answers<R> + Send,
    P: Opener + Send,
    J: Sink + Drop,
    Rt: Threads + Wait + Clock + Sync,
    O: Sink,
    E: Sink,
>(
    rt: &Rt,
    alloc: Global,
    setup: &[u8],
    from: &[u8],
    openers: Vec<P>,
    file: Option<J>,
    output: &mut O,
    error: &mut E,
) -> Result<(u8, Option<Kept<J>>), RaceFault>
    requires some { 1 ≤ vec_len openers }
    requires fits { vec_len openers ≤ MAX_SEATS }
    ensures sessions { IfOk result (RunsSessions R.rules A.answers P.Seat.known P.opens J.stream O.stream E.stream
        setup.now from.now openers.items file output.old output.new error.old error.new) }
    ensures fault { IfErr result (IsFaultOfSessions setup.now from.now (vec_len openers)) }
    ensures unwritten { OnErr result ((output.new ≡ output.old) × (error.new ≡ error.old)) }
{
    let count = openers.len() as u8;
    let (control, greeting) = match begin::<R>(alloc, setup, from, count) {
        Ok(begun) => begun,
        Err(fault) => return Err(RaceFault::Play(fault)),
    };
    let (control, finished, kept) = debug_seats::<R, A, P, J, Rt>(
        rt,
        alloc,
        control,
        greeting.as_slice(),
        openers,
        file,
    )?;
    let written = write_journal(alloc, control.journal(), output);
    control.close();
    let outcome = outcome_of(&kept);
    let _ = write_failures(finished.as_slice(), &written, &outcome, error);
    let status = status_after(finished.as_slice(), &written, &outcome);
    Ok((status, kept))
}
