//! Starting and joining the threads of the seats.

ghost use Rattle.std.specs.Prelude.{◌≡◌, ◌≤◌, vec_len, vec_capacity, All, IfOk, IfErr};
ghost use Rattle.cdb_journal.specs.Journals.{IsWritable};
ghost use Rattle.cdb_session.specs.Greetings.{greeting_text};
ghost use Rattle.cdb_shared_session.specs.Faults.{IsFaultOfThreads};
ghost use Rattle.cdb_shared_session.specs.SharedSessions.{AreSessions};
ghost use Rattle.cdb_shared_session.specs.Promises.{IsUnused, IsSeatPromise, ArePromised, HasRun};
ghost use Rattle.cdb_shared_session.specs.Promises.{seats_promised, openers_promised, AllHaveRun};
ghost use Rattle.cdb_shared_session.specs.Promises.{AreDealt, MayRun, HaveLeft};
ghost use Rattle.cdb_shared_session.specs.KeptOutcomes.{HasKept};
ghost use Rattle.cdb_shared.specs.Seats.{fresh_seat, HasHeadline};

use crate::endpoint::{Finished, Opener};
use crate::keeping::{Keeping, Kept, keep, keep_end};
use crate::seat::{SeatPromise, SeatResult, Welcome, run_seat};
use cdb_base::start::start;
use cdb_control::Control;
use cdb_rules::Runs;
use cdb_session::Answers;
use cdb_setup::Setup;
use cdb_shared::{Seat, Shared, Watch};
use cdb_streams::{PlayFault, RaceFault, Sink};
use std::alloc::Global;
use std::marker::PhantomData;
use std::snapshot::Snapshot;
use std::sync::Wait;
use std::sync::atomic::{AtomicU64, Ordering};
use std::thread;
use std::thread::{PromisedHandle, Scope, Threads};
use std::time::Clock;

/// Starts a thread for one seat, which is one fewer of those that are going on once it has ended.
fn start_one<
    's,
    E,
    R: Runs + Send + 's,
    A: Answers<R> + Send + 's,
    P: Opener + Send + 's,
    Rt: Threads + Wait + Sync,
>(
    scope: &Scope<'s, E>,
    rt: &'s Rt,
    alloc: Global,
    shared: &'s Shared<R>,
    going: &'s AtomicU64,
    welcome: Welcome<'s>,
    seat: Seat<R>,
    opener: P,
) -> Result<PromisedHandle<SeatResult<R, P::Seat>, SeatPromise<R, A, P>>, RaceFault>
    requires { IsUnused shared.now welcome seat }
    ensures promise { IfOk result (λ handle. IsSeatPromise seat opener handle.promise) }
    ensures fault { IfErr result IsFaultOfThreads }
{
    let promise = SeatPromise::<R, A, P> {
        answers: PhantomData,
        seat: Snapshot::of(&seat),
        opener: Snapshot::of(&opener),
    };
    let started = start(
        scope,
        promise,
        move || -> SeatResult<R, P::Seat>
            requires { IsUnused shared.now welcome seat }
            ensures { HasRun R.rules A.answers P.Seat.known P.opens seat opener result.seat result.finished }
        {
            let ended = run_seat::<R, A, P, Rt>(shared, rt, alloc, welcome, seat, opener);
            going.fetch_sub(1, Ordering::SeqCst);
            ended
        },
    );
    started.map_err(RaceFault::Spawn)
}

/// Starts a thread for each seat, the last seat's first.
fn start_all<
    's,
    E,
    R: Runs + Send + 's,
    A: Answers<R> + Send + 's,
    P: Opener + Send + 's,
    Rt: Threads + Wait + Sync,
>(
    scope: &Scope<'s, E>,
    rt: &'s Rt,
    alloc: Global,
    shared: &'s Shared<R>,
    going: &'s AtomicU64,
    welcome: Welcome<'s>,
    mut seats: Vec<Seat<R>>,
    mut openers: Vec<P>,
) -> Result<Vec<PromisedHandle<SeatResult<R, P::Seat>, SeatPromise<R, A, P>>>, RaceFault>
    requires ready { All (λ seat. IsUnused shared.now welcome seat) seats.items }
    requires openers { vec_len openers ≡ vec_len seats }
    ensures count { IfOk result (λ handles. vec_len handles ≡ vec_len seats) }
    ensures each { IfOk result (λ handles. ArePromised seats.items openers.items handles.items) }
    ensures fault { IfErr result IsFaultOfThreads }
{
    let mut handles = Vec::with_capacity(alloc, seats.len())?;
    while let Some(seat) = seats.pop() {
        let Some(opener) = openers.pop() else {
            unreachable!()
        };
        let handle = start_one::<E, R, A, P, Rt>(
            scope, rt, alloc, shared, going, welcome, seat, opener,
        )?;
        handles.push_reserved(handle);
    }
    Ok(handles)
}

/// Joins the threads, of which the last seat's comes first, and adds the seats and how their sessions ended, the first
/// seat's first, to lists that have room for them.
fn join_each<R: Runs, A: Answers<R>, P: Opener, Rt: Threads>(
    rt: &Rt,
    mut handles: Vec<PromisedHandle<SeatResult<R, P::Seat>, SeatPromise<R, A, P>>>,
    mut seats: Vec<Seat<R>>,
    mut all: Vec<Finished<P::Seat>>,
) -> (Vec<Seat<R>>, Vec<Finished<P::Seat>>)
    requires empty { (vec_len seats ≡ 0) × (vec_len all ≡ 0) }
    requires room { (vec_len handles ≤ vec_capacity seats) × (vec_len handles ≤ vec_capacity all) }
    ensures count { (vec_len result.0 ≡ vec_len handles) × (vec_len result.1 ≡ vec_len handles) }
    ensures each { AllHaveRun R.rules A.answers P.Seat.known P.opens
        (seats_promised handles.items) (openers_promised handles.items) result.0.items result.1.items }
{
    while let Some(handle) = handles.pop() {
        let SeatResult { seat, finished } = handle.join(rt);
        seats.push_reserved(seat);
        all.push_reserved(finished);
    }
    (seats, all)
}

/// What the sessions leave: the seats, what came of each, and the journal's file.
type Left<R, P, J> = (
    Vec<Seat<R>>,
    Vec<Finished<<P as Opener>::Seat>>,
    Keeping<R, J>,
);

/// Serves every seat in a thread of its own, keeps the journal while they are going on, and joins them all; the seats
/// and how their sessions ended are added to lists that have room for them.
fn run_all<
    R: Runs + Send,
    A: Answers<R> + Send,
    P: Opener + Send,
    J: Sink + Drop,
    Rt: Threads + Wait + Clock + Sync,
>(
    rt: &Rt,
    alloc: Global,
    shared: &Shared<R>,
    going: &AtomicU64,
    welcome: Welcome<'_>,
    seats: Vec<Seat<R>>,
    openers: Vec<P>,
    keeping: Keeping<R, J>,
    done: Vec<Seat<R>>,
    all: Vec<Finished<P::Seat>>,
) -> Result<Left<R, P, J>, RaceFault>
    requires { MayRun shared.now welcome seats openers keeping done all }
    ensures left { IfOk result
        (HaveLeft R.rules A.answers P.Seat.known P.opens J.stream seats openers keeping) }
    ensures fault { IfErr result IsFaultOfThreads }
{
    thread::scope(
        thread::scope_env(),
        rt,
        |scope| -> Result<Left<R, P, J>, RaceFault>
            requires { MayRun shared.now welcome seats openers keeping done all }
            ensures left { IfOk result
                (HaveLeft R.rules A.answers P.Seat.known P.opens J.stream seats openers keeping) }
            ensures fault { IfErr result IsFaultOfThreads }
        {
            let handles = start_all::<_, R, A, P, Rt>(
                scope, rt, alloc, shared, going, welcome, seats, openers,
            )?;
            let keeping = keep(shared, rt, alloc, keeping, going);
            let (seats, finished) = join_each::<R, A, P, Rt>(rt, handles, done, all);
            Ok((seats, finished, keeping))
        },
    )
}

/// A control, shared, with a watch.
#[tactic(auto, using(crate::proofs::AllSeats::dealt))]
fn share<R: Runs, Rt: Wait>(
    rt: &Rt,
    alloc: Global,
    control: Control<R>,
) -> Result<(Shared<R>, Vec<Seat<R>>, Watch<R>), RaceFault>
    ensures seats { IfOk result (λ r. AreDealt r.0 control r.1.items) }
    ensures watch { IfOk result (λ r. r.2 ≡ fresh_seat r.0 control 0) }
    ensures fault { IfErr result IsFaultOfThreads }
{
    match Shared::open_watched(rt, alloc, control) {
        Ok(opened) => Ok(opened),
        Err((control, refused)) => {
            control.close();
            Err(RaceFault::Play(PlayFault::NoMemory(refused)))
        }
    }
}

/// The same setup.
fn copy(alloc: Global, setup: &Setup) -> Result<Setup, RaceFault>
    ensures same { IfOk result (λ again. again ≡ setup.now) }
    ensures fault { IfErr result IsFaultOfThreads }
{
    let again = setup.copy(alloc)?;
    Ok(again)
}

/// How sessions ended: the control, what came of each seat, and the file of the journal, if there is one.
pub type Ended<R, P, J> = (
    Control<R>,
    Vec<Finished<<P as Opener>::Seat>>,
    Option<Kept<J>>,
);

/// Sessions of as many seats as there are openers, from 1 to 64, over one control, each in a thread of its
/// own, until all have ended; then the control, whose journal has the commands of all behind its entries so far, and
/// what came of each seat, in the order of the openers, of which the k-th is that of seat k. Each thread opens its own
/// seat, so a seat begins when its streams are open, and holds no other until then. A line has its response as in a
/// session of one seat, but that no line chooses a seat. A seat with a prompt is greeted with this greeting, the setup
/// in words, and where there is more than one seat its number stands before the prompt. A seat that can't be opened, or
/// whose session ends with a fault, ends alone, and the others go on. Where the journal so far can be written, the
/// whole journal can be too, and a replay of what was written tells each seat what it was told.
///
/// Where there is a file, the journal is kept in it: ten times a second the entries that are new are added in one
/// piece, and the last ones once all sessions have ended. Where it can't be written, the sessions go on.
///
/// # Errors
/// `NoMemory` where the control, the results or the threads find no memory, and then no session was begun. `Spawn`
/// where a thread can't be started: sessions that were begun by then go on to their ends, but what they left and the
/// journal are lost.
///
/// Promise: With several seats one journal explains the responses to each: it has the commands of each seat's lines, in
/// order and each once, or the first of them and is full; each seat got the replies to them there, in full before it
/// was asked for more; no entry is of another seat. What a line of a seat asks of the run is answered of the run that a
/// beginning of the journal leaves, which has of the seat just the commands of the lines before. A seat that watches is
/// shown the reply to each entry of others once, in order, and none to its own. A seat is opened in its own thread; one
/// that can't be opened has no entry, and ends with that fault. A seat that fails ends alone; only after out of memory
/// the journal may have one command more than had its reply. The file has the journal at the end, or a beginning of it
/// where it could not be written or memory was out.
pub fn debug_seats<
    R: Runs + Send,
    A: Answers<R> + Send,
    P: Opener + Send,
    J: Sink + Drop,
    Rt: Threads + Wait + Clock + Sync,
>(
    rt: &Rt,
    alloc: Global,
    control: Control<R>,
    greeting: &[u8],
    openers: Vec<P>,
    file: Option<J>,
) -> Result<Ended<R, P, J>, RaceFault>
    requires some { 1 ≤ vec_len openers }
    requires seats { vec_len openers ≡ control.seats }
    requires greeting { greeting.now ≡ greeting_text control.setup }
    ensures sessions { IfOk result
        (λ r. AreSessions R.rules A.answers P.Seat.known P.opens control openers.items r.0 r.1.items) }
    ensures kept { IfOk result (λ r. HasKept J.stream file r.2 r.0.journal) }
    ensures writable { IfOk result (λ r. IsWritable control → IsWritable r.0) }
    ensures headline { IfOk result (λ r. HasHeadline R.rules R.same_state r.0) }
    ensures fault { IfErr result IsFaultOfThreads }
{
    let count = control.seats();
    let done = Vec::with_capacity(alloc, openers.len())?;
    let all = Vec::with_capacity(alloc, openers.len())?;
    let again = copy(alloc, control.run().setup())?;
    let welcome = Welcome {
        setup: &again,
        greeting,
        seats: count,
    };
    let (shared, seats, watch) = share(rt, alloc, control)?;
    let going = AtomicU64::new(u64::from(count));
    let keeping = Keeping {
        watch,
        file,
        count: Ok(0),
    };
    let left = run_all::<R, A, P, J, Rt>(
        rt, alloc, &shared, &going, welcome, seats, openers, keeping, done, all,
    );
    let (seats, finished, keeping) = match left {
        Ok(left) => left,
        Err(fault) => {
            shared.close();
            return Err(fault);
        }
    };
    let Keeping { watch, file, count } = keeping;
    let control = shared.finish_watched(rt, seats, watch);
    let kept = keep_end(alloc, control.journal(), file, count);
    Ok((control, finished, kept))
}
