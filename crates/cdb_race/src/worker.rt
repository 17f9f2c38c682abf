//! What one thread of a race does with its seat.
ghost use Rattle.cdb_race.specs.Promises.{IsReady, HasRan, HasEndedAtGate};

use crate::plan::Plan;
use cdb_control::Reply;
use cdb_rules::Runs;
use cdb_shared::{End, Gate, Seat, Shared, drive, serve};
use std::alloc::Global;
use std::snapshot::Snapshot;
use std::sync::Wait;
use std::thread::Promise;

/// A seat whose thread has ended, with the replies to its script and why its session ended.
#[derive(Drop)]
pub(crate) struct Ran<T: Runs> {
    pub(crate) seat: Seat<T>,
    pub(crate) replies: Vec<Reply>,
    pub(crate) end: End,
}

/// What the thread of a seat promises.
#[derive(Drop)]
pub(crate) struct SeatPromise<'a, T: Runs, G> {
    pub(crate) plan: Plan<'a>,
    pub(crate) seat: Snapshot<Seat<T>>,
    pub(crate) gate: Snapshot<G>,
}

impl<'a, T: Runs, G: Gate> Promise<Ran<T>> for SeatPromise<'a, T, G> {
    ghost use Rattle.cdb_race.specs.Promises.{HasRan, HasEndedAtGate};

    ghost kept_by = { λ p r. HasRan T.rules p.plan p.seat.value r
        × HasEndedAtGate G.calls G.passes p.gate.value p.seat.value r.seat r.end };
}

/// Drives a process, or serves a script, by the seat's number.
pub(crate) fn run<T: Runs, G: Gate + Drop, R: Wait>(
    shared: &Shared<T>,
    rt: &R,
    alloc: Global,
    plan: Plan<'_>,
    seat: Seat<T>,
    gate: G,
) -> Ran<T>
    requires { IsReady shared.now plan seat }
    ensures ran { HasRan T.rules plan.entry seat result }
    ensures ended { HasEndedAtGate G.calls G.passes gate seat result.seat result.end }
{
    let number = seat.number();
    if number <= plan.processes {
        let process = u32::from(number);
        let (seat, _, end) = drive(shared, rt, alloc, seat, gate, process, plan.turns);
        let replies = Vec::new(alloc);
        Ran { seat, replies, end }
    } else {
        let commands = plan.script(number).commands();
        let (seat, replies, end) = serve(shared, rt, alloc, seat, gate, commands);
        Ran { seat, replies, end }
    }
}
