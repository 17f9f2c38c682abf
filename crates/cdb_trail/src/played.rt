//! A run that is played again up to a step, and how values lie and move in it.

ghost use Rattle.std.specs.Prelude.{◌≡◌, ◌+◌, ◌<◌, ◌≤◌, length, take, IfOk, OnOk};
ghost use Rattle.cdb_rules.specs.Runs.{IsInOrder, process_in, state_in, with_event, with_history};
ghost use Rattle.cdb_trail.specs.Flow.{flow_by, flow_of, slot as slot_of, value_at};
ghost use Rattle.cdb_trail.specs.Played.{AreFirstFlows, IsTakenBy};

use crate::flow::{Flow, Spot};
use crate::flowing::Flowing;
use cdb_base::{Event, Kind, MsgName, NoMemory, Proc, Val};
use cdb_deeds::value_of;
use cdb_process::Process;
use cdb_rules::Trace;
use cdb_run::Run;
use std::alloc::Global;

/// The flow of a step of that process, if the run has it.
fn flow_by<P: Flowing>(run: &Run<P>, p: Proc, kind: &Kind) -> Flow<P::Slot>
    ensures { result ≡ flow_by P.flows p kind.now (process_in P.table run.now p) }
{
    match run.process(u32::from(p.number())) {
        Some(p) => run.local(p).flow(p, kind),
        None => Flow::still(),
    }
}

/// The flow of an event that comes next in the run.
fn flow_of<P: Flowing>(run: &Run<P>, event: &Event) -> Flow<P::Slot>
    ensures { result ≡ flow_of P.flows (state_in P.table run.now) event.now }
{
    match event {
        Event::Step { p, kind, .. } => flow_by(run, *p, kind),
        Event::Lost(_) => Flow::still(),
    }
}

/// The value in a slot of a process, if the run has the process.
fn value_in<P: Flowing>(run: &Run<P>, p: Proc, slot: &P::Slot) -> Option<Val>
    ensures { result ≡ value_at P.flows (state_in P.table run.now) (slot_of p slot.now) }
{
    let p = run.process(u32::from(p.number()))?;
    run.local(p).value(slot)
}

/// The value that lies in a spot.
fn value_at<P: Flowing>(run: &Run<P>, spot: &Spot<P::Slot>) -> Option<Val>
    ensures { result ≡ value_at P.flows (state_in P.table run.now) spot.now }
{
    match *spot {
        Spot::Slot(p, slot) => value_in(run, p, &slot),
        Spot::Message(s, m) => value_of(run.payload(MsgName { s, m })?),
        Spot::Register(register) if run.has(register) => run.cell(register).val,
        Spot::Register(_) => None,
    }
}

/// The spot from which the event that stands behind the first `count` takes a value, with the value; none where it
/// takes no value. The run stands as it does before the event.
pub(crate) fn taken_by<P: Flowing>(
    run: &Trace,
    before: &Run<P>,
    count: usize,
) -> Option<(Spot<P::Slot>, Val)>
    requires within { count < length run.now.history }
    requires before { before.now ≡ with_history run.now (take count run.now.history) }
    ensures { IsTakenBy P.table P.flows run.now (count + 1) result }
{
    let events = run.events();
    let Some(from) = flow_of(before, &events[count]).takes() else {
        return None;
    };
    let Some(value) = value_at(before, &from) else {
        return None;
    };
    Some((from, value))
}

/// Takes the next event of the run that is played again.
fn take_next<P: Process>(alloc: Global, again: &mut Run<P>, event: &Event) -> Result<(), NoMemory>
    requires { IsInOrder P.table (with_event again.old event.now) }
    ensures { OnOk result (again.new ≡ with_event again.old event.now) }
{
    // Its clause says that the parts of the setup are in range.
    let _ranges = again.setup().n();
    match again.again(alloc, event)? {
        Ok(_) => Ok(()),
        Err(_) => unreachable!(),
    }
}

/// Takes the event at position `i`, from 0, of the run that is played again, and adds its flow to those of the events
/// before it.
pub(crate) fn play_on<P: Flowing>(
    alloc: Global,
    run: &Trace,
    i: usize,
    again: &mut Run<P>,
    flows: &mut Vec<Flow<P::Slot>>,
) -> Result<(), NoMemory>
    requires valid { IsInOrder P.table run.now }
    requires within { i < length run.now.history }
    requires again { again.old ≡ with_history run.now (take i run.now.history) }
    requires number { length flows.old.items ≡ i }
    requires flows { AreFirstFlows P.table P.flows run.now flows.old.items }
    ensures again { OnOk result (again.new ≡ with_history run.now (take (i + 1) run.now.history)) }
    ensures number { OnOk result (length flows.new.items ≡ i + 1) }
    ensures flows { OnOk result (AreFirstFlows P.table P.flows run.now flows.new.items) }
{
    let events = run.events();
    let event = &events[i];
    flows.push(flow_of(again, event))?;
    take_next(alloc, again, event)?;
    Ok(())
}

/// The run as it stands before its event at position `count`, from 0, and the flows of the events before it.
pub(crate) fn play_before<P: Flowing>(
    alloc: Global,
    run: &Trace,
    count: usize,
) -> Result<(Run<P>, Vec<Flow<P::Slot>>), NoMemory>
    requires valid { IsInOrder P.table run.now }
    requires within { count < length run.now.history }
    ensures before { IfOk result (λ played.
        played.0 ≡ with_history run.now (take count run.now.history)) }
    ensures number { IfOk result (λ played. length played.1.items ≡ count) }
    ensures flows { IfOk result (λ played. AreFirstFlows P.table P.flows run.now played.1.items) }
{
    let mut again = Run::start(alloc, run.setup().copy(alloc)?)?;
    let mut flows = Vec::new(alloc);
    for i in 0..count {
        play_on(alloc, run, i, &mut again, &mut flows)?;
    }
    Ok((again, flows))
}
