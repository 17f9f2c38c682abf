//! How values go through the leader machine.

ghost use Rattle.std.specs.Prelude.{◌≡◌, ◌+◌, [], ◌∷◌, length};
ghost use Rattle.cdb_trail.specs.Flow.{slot, message, moves};
ghost use Rattle.cdb_trail.specs.LeaderFlow.{received, leader_flows, sets_aux, sets_estimate};
ghost use Rattle.cdb_trail.specs.LeaderFlow.{send_flow, query_flow, local_flow};

use crate::flow::{Flow, Spot};
use crate::flowing::Flowing;
use cdb_base::{Kind, Proc, Val};
use cdb_deeds::{number_of_estimate, number_of_learnt, number_of_proposal, value_received};
use cdb_leader::{Leader, Place};
use cdb_process::Process;

/// A slot of a process of the leader machine.
#[derive(Clone, Copy, PartialEq, Eq)]
pub enum Slot {
    /// The message that it received as the one of that number, from 1 on.
    Received(usize),
    /// Its estimate.
    Estimate,
    /// What came of the first phase.
    Aux,
    /// Its decision.
    Decision,
}

/// The flow of the end of the first phase.
fn sets_aux(machine: &Leader, p: Proc) -> Flow<Slot>
    ensures { result ≡ sets_aux p machine.now }
{
    let takes = number_of_estimate(machine).map(|i| Spot::Slot(p, Slot::Received(i)));
    Flow::sets(takes, Spot::Slot(p, Slot::Aux))
}

/// The flow of a step that adopts the value of the message of that number, where there is one.
fn sets_estimate(p: Proc, number: Option<usize>) -> Flow<Slot>
    ensures { result ≡ sets_estimate p number }
{
    match number {
        Some(i) => {
            let takes = Some(Spot::Slot(p, Slot::Received(i)));
            Flow::sets(takes, Spot::Slot(p, Slot::Estimate))
        }
        None => Flow::still(),
    }
}

/// The flow of a query.
fn query_flow(machine: &Leader, p: Proc, leader: Proc) -> Flow<Slot>
    ensures { result ≡ query_flow machine.now.place p machine.now leader }
{
    match machine.stands_at() {
        Place::L2 if machine.heard_first_phase() && machine.lead() != Some(leader) => {
            sets_aux(machine, p)
        }
        _ => Flow::still(),
    }
}

/// The flow of a send.
fn send_flow(machine: &Leader, p: Proc, m: u16) -> Flow<Slot>
    ensures { result ≡ send_flow machine.now.place p m }
{
    let estimate = Spot::Slot(p, Slot::Estimate);
    let message = Spot::Message(p, m);
    match machine.stands_at() {
        Place::L1 => Flow::sets(Some(estimate), message),
        Place::L3 => Flow::sets(Some(Spot::Slot(p, Slot::Aux)), message),
        Place::L5 => Flow::moves_into_both(estimate, message, Spot::Slot(p, Slot::Decision)),
        _ => Flow::still(),
    }
}

/// The flow of a receive.
fn receive_flow(machine: &Leader, p: Proc, from: Proc, m: u16) -> Flow<Slot>
    ensures { result ≡ moves (message from m)
        (slot p (received (length machine.now.inbox + 1)) ∷ []) }
{
    let number = machine.received().len() + 1;
    let takes = Some(Spot::Message(from, m));
    Flow::sets(takes, Spot::Slot(p, Slot::Received(number)))
}

/// The flow of a local step.
fn local_flow(machine: &Leader, p: Proc) -> Flow<Slot>
    ensures { result ≡ local_flow machine.now.place p machine.now }
{
    match machine.stands_at() {
        Place::L2 => sets_aux(machine, p),
        Place::L4 => sets_estimate(p, number_of_proposal(machine)),
        _ => Flow::still(),
    }
}

impl Flowing for Leader {
    type Slot = Slot;

    ghost flows = { leader_flows };

    fn value(&self, slot: &Slot) -> Option<Val> {
        match *slot {
            Slot::Received(number) => value_received(self, number),
            Slot::Estimate => Some(self.estimate()),
            Slot::Aux => self.aux(),
            Slot::Decision => self.decision(),
        }
    }

    fn flow(&self, p: Proc, kind: &Kind) -> Flow<Slot> {
        match *kind {
            Kind::Query(leader) => query_flow(self, p, leader),
            Kind::Send(m) => send_flow(self, p, m),
            Kind::Recv(from, m) => receive_flow(self, p, from, m),
            Kind::Local => local_flow(self, p),
            Kind::Learn => sets_estimate(p, number_of_learnt(self)),
            Kind::Read(_) | Kind::Write(_) | Kind::Crash => Flow::still(),
        }
    }

    fn is_one_slot(slot: &Slot, other: &Slot) -> bool {
        slot == other
    }
}
