//! Starting and joining the threads of a race.
ghost use Rattle.std.specs.Prelude.{◌≡◌, ◌+◌, ◌<◌, ◌≤◌, length, vec_len, All, IfOk, IfErr, MatchOption, Err};
ghost use Rattle.cdb_base.specs.Limits.{MAX_SEATS};
ghost use Rattle.cdb_race.specs.Faults.{fault_in, out_of_memory, AreWell, IsAmongSeats, IsFaultOfStart};
ghost use Rattle.cdb_race.specs.Faults.{IsFaultOfThreads, IsNotStopped, IsRoomFor, IsFaultOfOne};
ghost use Rattle.cdb_race.specs.LastFault.{IsLastFault};
ghost use Rattle.cdb_race.specs.Plans.{seats_of};
ghost use Rattle.cdb_race.specs.Promises.{IsReady, ArePromised, IsPromise, HasRan, HasEndedAtGate};
ghost use Rattle.cdb_race.specs.Races.{all_reply_views, AllPass, AreRepliesOf, AreSeatsOf};
ghost use Rattle.cdb_race.specs.Races.{FillsJournal, HasRaced, HaveRan, MayFill};
ghost use Rattle.cdb_shared.specs.Seats.{AreFresh, HasHeadline};

use crate::plan::{Plan, Script};
use crate::worker::{Ran, SeatPromise, run};
use cdb_base::NoMemory;
use cdb_base::start::start;
use cdb_control::{Control, OpenFault, Reply};
use cdb_rules::Runs;
use cdb_setup::Setup;
use cdb_shared::{End, Gate, Seat, Shared};
use cdb_streams::RaceFault;
use std::alloc::Global;
use std::snapshot::Snapshot;
use std::sync::Wait;
use std::thread;
use std::thread::{PromisedHandle, Scope, Threads};

/// Starts a thread for one seat.
fn start_one<'s, E, T: Runs + Send + 's, G: Gate + Drop + Send + 's, R: Threads + Wait + Sync>(
    scope: &Scope<'s, E>,
    rt: &'s R,
    alloc: Global,
    shared: &'s Shared<T>,
    plan: Plan<'s>,
    seat: Seat<T>,
    gate: G,
) -> Result<PromisedHandle<Ran<T>, SeatPromise<'s, T, G>>, RaceFault>
    requires { IsReady shared.now plan seat }
    ensures promise { IfOk result (λ handle. IsPromise plan.entry seat gate handle.promise) }
    ensures fault { IfErr result IsFaultOfStart }
{
    let promise = SeatPromise {
        plan,
        seat: Snapshot::of(&seat),
        gate: Snapshot::of(&gate),
    };
    let started = start(
        scope,
        promise,
        move || -> Ran<T>
            requires { IsReady shared.now plan seat }
            ensures ran { HasRan T.rules plan.entry seat result }
            ensures ended { HasEndedAtGate G.calls G.passes gate seat result.seat result.end }
        { run(shared, rt, alloc, plan, seat, gate) },
    );
    started.map_err(RaceFault::Spawn)
}

/// Starts a thread for each seat, the last seat's first.
fn start_all<'s, E, T: Runs + Send + 's, G: Gate + Drop + Send + 's, R: Threads + Wait + Sync>(
    scope: &Scope<'s, E>,
    rt: &'s R,
    alloc: Global,
    shared: &'s Shared<T>,
    plan: Plan<'s>,
    mut seats: Vec<Seat<T>>,
    mut gates: Vec<G>,
) -> Result<Vec<PromisedHandle<Ran<T>, SeatPromise<'s, T, G>>>, RaceFault>
    requires ready { All (λ seat. IsReady shared.now plan seat) seats.items }
    requires gates { vec_len gates ≡ vec_len seats }
    ensures count { IfOk result (λ handles. vec_len handles ≡ vec_len seats) }
    ensures each { IfOk result (λ handles. ArePromised plan.entry seats.items gates.items handles.items) }
    ensures fault { IfErr result IsFaultOfThreads }
{
    let mut handles = Vec::with_capacity(alloc, seats.len())?;
    while let Some(seat) = seats.pop() {
        let Some(gate) = gates.pop() else {
            unreachable!()
        };
        let handle = start_one(scope, rt, alloc, shared, plan, seat, gate)?;
        handles.push_reserved(handle);
    }
    Ok(handles)
}

/// Runs every seat in a thread of its own, and joins them all. The last seat's outcome comes first.
fn run_all<T: Runs + Send, G: Gate + Drop + Send, R: Threads + Wait + Sync>(
    rt: &R,
    alloc: Global,
    shared: &Shared<T>,
    plan: Plan<'_>,
    seats: Vec<Seat<T>>,
    gates: Vec<G>,
) -> Result<Vec<Ran<T>>, RaceFault>
    requires ready { All (λ seat. IsReady shared.now plan seat) seats.items }
    requires gates { vec_len gates ≡ vec_len seats }
    ensures ran { IfOk result
        (λ rans. HaveRan T.rules G.calls G.passes plan.entry gates.items seats.items rans.items) }
    ensures fault { IfErr result IsFaultOfThreads }
{
    thread::scope(
        thread::scope_env(),
        rt,
        |scope| -> Result<Vec<Ran<T>>, RaceFault>
            requires ready { All (λ seat. IsReady shared.now plan seat) seats.items }
            requires gates { vec_len gates ≡ vec_len seats }
            ensures ran { IfOk result
                (λ rans. HaveRan T.rules G.calls G.passes plan.entry gates.items seats.items rans.items) }
            ensures fault { IfErr result IsFaultOfThreads }
        {
            let handles = start_all(scope, rt, alloc, shared, plan, seats, gates)?;
            match thread::join_promised(rt, handles) {
                Ok(rans) => Ok(rans),
                Err(error) => Err(RaceFault::from(NoMemory::from(error))),
            }
        },
    )
}

/// The fault of a seat whose session did not end well.
fn fault_of<T: Runs>(ran: &Ran<T>) -> Option<RaceFault>
    ensures { result ≡ fault_in ran.now }
{
    match ran.end {
        End::All | End::Done => None,
        End::Stopped => Some(RaceFault::Stopped(ran.seat.number())),
        End::NoMemory(refused) => Some(RaceFault::from(refused)),
        End::JournalFull => Some(RaceFault::JournalFull),
    }
}

/// The fault of the least seat that has one. The last seat's outcome comes first.
fn first_fault<T: Runs>(rans: &[Ran<T>]) -> Option<RaceFault>
    ensures { MatchOption result (AreWell rans.now) (λ fault. IsLastFault fault rans.now) }
{
    for position in (0..rans.len()).rev() {
        if let Some(fault) = fault_of(&rans[position]) {
            return Some(fault);
        }
    }
    None
}

/// Room for this many seats and their replies.
fn room_for<T: Runs>(
    alloc: Global,
    count: usize,
) -> Result<(Vec<Seat<T>>, Vec<Vec<Reply>>), RaceFault>
    ensures fault { IfErr result (λ fault. fault ≡ out_of_memory) }
    ensures room { IfOk result (λ room. IsRoomFor count room.0 room.1) }
{
    let seats = Vec::with_capacity(alloc, count)?;
    let replied = Vec::with_capacity(alloc, count)?;
    Ok((seats, replied))
}

/// The seats and their replies, the first seat's first, where there is room for them. It takes no memory.
fn collect<T: Runs>(
    mut rans: Vec<Ran<T>>,
    mut seats: Vec<Seat<T>>,
    mut replied: Vec<Vec<Reply>>,
) -> (Vec<Seat<T>>, Vec<Vec<Reply>>)
    requires room { IsRoomFor (vec_len rans) seats replied }
    ensures count { (vec_len result.0 ≡ vec_len rans) × (vec_len result.1 ≡ vec_len rans) }
    ensures seats { AreSeatsOf result.0.items rans.items }
    ensures replies { AreRepliesOf (all_reply_views result.1.items) rans.items }
{
    while let Some(ran) = rans.pop() {
        let Ran {
            seat,
            replies,
            end: _,
        } = ran;
        seats.push_reserved(seat);
        replied.push_reserved(replies);
    }
    (seats, replied)
}

/// The final control, and for each seat the replies to its script, none where it drove a process.
#[derive(Drop)]
pub struct Raced<T: Runs> {
    pub control: Control<T>,
    pub replies: Vec<Vec<Reply>>,
}

impl<T: Runs> Raced<T> {
    /// Gives up what a race left. Code above drops it by this call, since the proof of what drops one goes through all
    /// its parts.
    pub fn close(self) {}
}

/// A control of the setup in which nothing has happened, shared, with the seats of the plan.
fn open_shared<T: Runs, R: Wait>(
    rt: &R,
    alloc: Global,
    setup: Setup,
    plan: Plan<'_>,
) -> Result<(Shared<T>, Vec<Seat<T>>), RaceFault>
    requires some { 1 ≤ seats_of plan }
    requires fits { seats_of plan ≤ MAX_SEATS }
    ensures seats { IfOk result (λ r. AreFresh r.0 setup (seats_of plan.entry) r.1.items) }
    ensures fault { IfErr result (λ fault. fault ≡ out_of_memory) }
{
    let control = match Control::open(alloc, setup, plan.seats()) {
        Ok(control) => control,
        Err(OpenFault::NoMemory(refused)) => return Err(RaceFault::from(refused)),
        Err(OpenFault::Seats) => unreachable!(),
    };
    match Shared::open(rt, alloc, control) {
        Ok(opened) => Ok(opened),
        Err((control, refused)) => {
            control.close();
            Err(RaceFault::from(refused))
        }
    }
}

/// Drives each process by this many turns and serves each script, each in a thread of its own, and joins
/// them all. The seats and the gates of the processes come first, and then those of the scripts; there
/// are at most 64. All memory for what it hands back is taken before the threads start. Of several faults of sessions
/// the one of the least seat is returned, and the race leaves nothing then. `Stopped` comes only from a gate that did
/// not let a call go on, and `JournalFull` only where these processes and scripts make as many calls as a journal has
/// entries at most.
///
/// Promise: A race that ends well has a journal of each script's commands in order, `auto` of each process as often as
/// its turns or until it was done, and no more; the headline holds of it. `JournalFull` comes only where processes
/// times turns and the commands reach 999,999; any other fault is one of starting or joining threads, or that of the
/// least seat whose session ended with one.
pub fn race<T: Runs + Send, G: Gate + Drop + Send, R: Threads + Wait + Sync>(
    rt: &R,
    alloc: Global,
    setup: Setup,
    turns: u32,
    scripts: &[Script],
    gates: Vec<G>,
) -> Result<Raced<T>, RaceFault>
    requires fits { setup.processes + length scripts.now ≤ MAX_SEATS }
    requires gates { vec_len gates ≡ setup.processes + length scripts.now }
    ensures raced { IfOk result (HasRaced T.rules setup turns scripts.now) }
    ensures headline { IfOk result (λ r. HasHeadline T.rules T.same_state r.control) }
    ensures fault { IfErr result (IsAmongSeats (setup.processes + length scripts.now)) }
    ensures full { result ≡ Err RaceFault.JournalFull → FillsJournal setup turns scripts.now }
    ensures most { result ≡ Err RaceFault.JournalFull → MayFill setup turns scripts.now }
    ensures of_one { IfErr result
        (IsFaultOfOne T T.rules G.calls G.passes gates.items setup turns scripts.now) }
    ensures passes { AllPass G.passes gates.items → IfErr result IsNotStopped }
{
    let processes = setup.n();
    let plan = Plan {
        processes,
        turns,
        scripts,
    };
    let (room, reply_room) = room_for(alloc, usize::from(plan.seats()))?;
    let (shared, seats) = open_shared(rt, alloc, setup, plan)?;
    let rans = match run_all(rt, alloc, &shared, plan, seats, gates) {
        Ok(rans) => rans,
        Err(fault) => {
            shared.close();
            return Err(fault);
        }
    };
    let fault = first_fault(rans.as_slice());
    let (seats, replies) = collect(rans, room, reply_room);
    let control = shared.finish(rt, seats);
    // Its clauses say that each entry is of a seat, and how many there are at most.
    control.journal();
    let raced = Raced { control, replies };
    match fault {
        None => Ok(raced),
        Some(fault) => {
            raced.close();
            Err(fault)
        }
    }
}
