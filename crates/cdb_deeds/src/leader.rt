//! What a step of the leader machine did.

ghost use Rattle.std.specs.Prelude.{◌≡◌, ◌+◌, ◌<◌, is_some, find, length, IfOk, IfSome};
ghost use Rattle.std.specs.List.{position};
ghost use Rattle.std.specs.Option.{option_and_then, option_flatten};
ghost use Rattle.cdb_base.specs.Positions.{nth};
ghost use Rattle.cdb_base.specs.Processes.{all_processes};
ghost use Rattle.cdb_leader.specs.Inbox.{first_phase, second_phase, as_decision, first_phase_from, second_phase_from};
ghost use Rattle.cdb_leader.specs.Inbox.{decision_from, if_from, names as is_named};
ghost use Rattle.cdb_process.specs.Values.{payload_value};
ghost use Rattle.cdb_deeds.specs.LeaderDeeds.{number_from, number_of_estimate, number_of_proposal, number_of_learnt};
ghost use Rattle.cdb_deeds.specs.LeaderDeeds.{number_in, messages_in, source_with, source_at, votes, sets_aux};
ghost use Rattle.cdb_deeds.specs.LeaderDeeds.{ends, query_deed, local_deed, learn_deed, leader_deed};

use crate::deed::{Deed, Messages, Source};
use cdb_base::limits::MAX_ROUND;
use cdb_base::{Kind, MsgName, NoMemory, Payload, Proc, Val};
use cdb_leader::{Leader, Place, Received, find_decision, find_first_phase, find_second_phase};
use cdb_process::Process;
use std::alloc::Global;

/// Which messages of the round count.
#[derive(Clone, Copy)]
pub(crate) enum Phase {
    /// Those of the first phase.
    First,
    /// Those of the first phase that name that leader.
    Naming(Proc),
    /// Those of the second phase.
    Second,
}

/// The index of the first message of the first phase of that round from that sender.
fn index_of_first_phase(inbox: &[Received], round: u32, sender: Proc) -> Option<usize>
    ensures index { result ≡ position (λ it. is_some (if_from sender (first_phase round) it)) inbox.now }
    ensures within { IfSome result (λ index. index < length inbox.now) }
{
    inbox
        .iter()
        .position(|it| it.first_phase(round, sender).is_some())
}

/// The number, from 1 on, of the first message of the first phase of that round from that sender.
#[tactic(auto, using(crate::proofs::Numbers::number_by_position))]
fn number_of_first_phase(inbox: &[Received], round: u32, sender: Proc) -> Option<usize>
    ensures { result ≡ number_from sender (first_phase round) inbox.now }
{
    Some(index_of_first_phase(inbox, round, sender)? + 1)
}

/// The index of the first message of the second phase of that round from that sender.
fn index_of_second_phase(inbox: &[Received], round: u32, sender: Proc) -> Option<usize>
    ensures index { result ≡ position (λ it. is_some (if_from sender (second_phase round) it)) inbox.now }
    ensures within { IfSome result (λ index. index < length inbox.now) }
{
    inbox
        .iter()
        .position(|it| it.second_phase(round, sender).is_some())
}

/// The number, from 1 on, of the first message of the second phase of that round from that sender.
#[tactic(auto, using(crate::proofs::Numbers::number_by_position))]
fn number_of_second_phase(inbox: &[Received], round: u32, sender: Proc) -> Option<usize>
    ensures { result ≡ number_from sender (second_phase round) inbox.now }
{
    Some(index_of_second_phase(inbox, round, sender)? + 1)
}

/// The index of the first message with a decision from that sender.
fn index_of_decision(inbox: &[Received], sender: Proc) -> Option<usize>
    ensures index { result ≡ position (λ it. is_some (if_from sender as_decision it)) inbox.now }
    ensures within { IfSome result (λ index. index < length inbox.now) }
{
    inbox.iter().position(|it| it.decision(sender).is_some())
}

/// The number, from 1 on, of the first message with a decision from that sender.
#[tactic(auto, using(crate::proofs::Numbers::number_by_position))]
fn number_of_decision(inbox: &[Received], sender: Proc) -> Option<usize>
    ensures { result ≡ number_from sender as_decision inbox.now }
{
    Some(index_of_decision(inbox, sender)? + 1)
}

/// The number, from 1 on, of the message that a process received from its leader where the first phase ends: of those
/// in its inbox, in the order of receipt; none where the senders agree on no leader.
pub fn number_of_estimate(machine: &Leader) -> Option<usize>
    ensures { result ≡ number_of_estimate machine.now }
{
    let leader = machine.agreed_leader()?;
    number_of_first_phase(machine.received(), machine.round(), leader)
}

/// Whether the second-phase message of the round from that sender came, and has a value.
fn proposes(machine: &Leader, sender: Proc) -> bool
    ensures { result ≡ is_some (option_flatten
        (second_phase_from machine.now.round sender machine.now.inbox)) }
{
    find_second_phase(machine.received(), machine.round(), sender)
        .flatten()
        .is_some()
}

/// The least sender whose second-phase message of the round came and has a value.
fn proposer(machine: &Leader) -> Option<Proc>
    ensures { result ≡ find
        (λ m. is_some (option_flatten (second_phase_from machine.now.round m machine.now.inbox)))
        all_processes }
{
    Proc::all()
        .iter()
        .copied()
        .find(|sender| proposes(machine, *sender))
}

/// The number of the message whose value a process adopts where the second phase ends; none where no message has a
/// value.
pub fn number_of_proposal(machine: &Leader) -> Option<usize>
    ensures { result ≡ number_of_proposal machine.now }
{
    let sender = proposer(machine)?;
    number_of_second_phase(machine.received(), machine.round(), sender)
}

/// Whether a decision of that sender came.
fn has_decided(machine: &Leader, sender: Proc) -> bool
    ensures { result ≡ is_some (decision_from sender machine.now.inbox) }
{
    find_decision(machine.received(), sender).is_some()
}

/// The least sender of which a decision came.
fn decider(machine: &Leader) -> Option<Proc>
    ensures { result ≡ find (λ m. is_some (decision_from m machine.now.inbox)) all_processes }
{
    Proc::all()
        .iter()
        .copied()
        .find(|sender| has_decided(machine, *sender))
}

/// The number of the message whose decision a process adopts; none where no decision came.
pub fn number_of_learnt(machine: &Leader) -> Option<usize>
    ensures { result ≡ number_of_learnt machine.now }
{
    let sender = decider(machine)?;
    number_of_decision(machine.received(), sender)
}

/// The value that a payload carries, if it carries one.
pub fn value_of(payload: &Payload) -> Option<Val>
    ensures { result ≡ payload_value payload.now }
{
    match *payload {
        Payload::P1 { est, .. } | Payload::D { est } => Some(est),
        Payload::P2 { aux, .. } => aux,
    }
}

/// The value of the message that the process received as the one of that number, from 1 on, where there is one with a
/// value.
pub fn value_received(machine: &Leader, number: usize) -> Option<Val>
    ensures { result ≡ option_and_then (λ it. payload_value it.payload) (nth machine.now.inbox number) }
{
    let index = number.checked_sub(1)?;
    let message = machine.received().get(index)?;
    value_of(&message.payload)
}

/// Whether the first-phase message of the round from that sender names that leader.
fn names_leader(machine: &Leader, leader: Proc, sender: Proc) -> bool
    ensures { result ≡ is_named leader (first_phase_from machine.now.round sender machine.now.inbox) }
{
    find_first_phase(machine.received(), machine.round(), sender).is_some_and(|said| said.lead
        == leader)
}

/// The number of the message of that sender that counts.
fn number_in(machine: &Leader, phase: &Phase, sender: Proc) -> Option<usize>
    ensures { result ≡ number_in phase.now machine.now sender }
{
    let inbox = machine.received();
    let round = machine.round();
    match *phase {
        Phase::First => number_of_first_phase(inbox, round, sender),
        Phase::Naming(leader) if names_leader(machine, leader, sender) => {
            number_of_first_phase(inbox, round, sender)
        }
        Phase::Naming(_) => None,
        Phase::Second => number_of_second_phase(inbox, round, sender),
    }
}

/// The name of that number, from 1 on.
fn name_at(names: &[MsgName], number: usize) -> Option<MsgName>
    ensures { result ≡ nth names.now number }
{
    names.get(number.checked_sub(1)?).copied()
}

/// The name of the message of that sender that counts.
fn name_in(machine: &Leader, names: &[MsgName], phase: &Phase, sender: Proc) -> Option<MsgName>
    ensures { result ≡ option_and_then (nth names.now) (number_in phase.now machine.now sender) }
{
    name_at(names, number_in(machine, phase, sender)?)
}

/// The messages that count, by sender.
fn messages_in(
    alloc: Global,
    machine: &Leader,
    names: &[MsgName],
    phase: &Phase,
) -> Result<Messages, NoMemory>
    ensures { IfOk result (λ by. by ≡ messages_in phase.now machine.now names.now) }
{
    let mut by = Messages::none(alloc);
    for sender in Proc::all() {
        if let Some(name) = name_in(machine, names, phase, sender) {
            by.push(name)?;
        }
    }
    Ok(by)
}

/// The value of the message of that number, with its name.
fn source_at(machine: &Leader, names: &[MsgName], number: usize) -> Option<Source>
    ensures { result ≡ source_at machine.now names.now number }
{
    let message = name_at(names, number)?;
    let value = value_received(machine, number)?;
    Some(Source { value, message })
}

/// What the end of the first phase did.
fn sets_aux(alloc: Global, machine: &Leader, names: &[MsgName]) -> Result<Deed, NoMemory>
    ensures { IfOk result (λ deed. deed ≡ sets_aux machine.now names.now) }
{
    let source = number_of_estimate(machine).and_then(|number| source_at(machine, names, number));
    match (machine.agreed_leader(), source) {
        (Some(leader), Some(source)) => {
            let by = messages_in(alloc, machine, names, &Phase::Naming(leader))?;
            Ok(Deed::Votes { source, leader, by })
        }
        _ => {
            let by = messages_in(alloc, machine, names, &Phase::First)?;
            Ok(Deed::VotesNone { by })
        }
    }
}

/// What the end of the second phase did.
fn ends(alloc: Global, machine: &Leader, names: &[MsgName]) -> Result<Deed, NoMemory>
    ensures { IfOk result (λ deed. deed ≡ ends machine.now names.now
        (option_and_then (source_at machine.now names.now) (number_of_proposal machine.now))) }
{
    let by = messages_in(alloc, machine, names, &Phase::Second)?;
    let source = number_of_proposal(machine).and_then(|number| source_at(machine, names, number));
    match source {
        Some(source) if machine.all_propose(source.value) => Ok(Deed::Settles { source, by }),
        Some(source) => Ok(Deed::Adopts { source, by }),
        None => Ok(Deed::Keeps {
            value: machine.estimate(),
            by,
        }),
    }
}

/// What a query did.
fn query_deed(
    alloc: Global,
    machine: &Leader,
    names: &[MsgName],
    leader: Proc,
) -> Result<Deed, NoMemory>
    ensures { IfOk result (λ deed.
        deed ≡ query_deed machine.now.place machine.now names.now leader) }
{
    match machine.stands_at() {
        Place::L0 if machine.round() < MAX_ROUND => Ok(Deed::Round(machine.round() + 1)),
        Place::L2 if machine.heard_first_phase() && machine.lead() != Some(leader) => {
            sets_aux(alloc, machine, names)
        }
        _ => Ok(Deed::Nothing),
    }
}

/// What a local step did.
fn local_deed(alloc: Global, machine: &Leader, names: &[MsgName]) -> Result<Deed, NoMemory>
    ensures { IfOk result (λ deed.
        deed ≡ local_deed machine.now.place machine.now names.now) }
{
    match machine.stands_at() {
        Place::L2 => sets_aux(alloc, machine, names),
        Place::L4 => ends(alloc, machine, names),
        _ => Ok(Deed::Nothing),
    }
}

/// What the adoption of a decision did.
fn learn_deed(machine: &Leader, names: &[MsgName]) -> Deed
    ensures { result ≡ learn_deed machine.now names.now }
{
    match number_of_learnt(machine).and_then(|number| source_at(machine, names, number)) {
        Some(source) => Deed::Learns(source),
        None => Deed::Nothing,
    }
}

/// What a step of that kind does, which a process takes next whose machine stands so; the names are those of the
/// messages that it has received, in the order of receipt. `NoMemory` if an allocation fails.
pub fn leader_deed(
    alloc: Global,
    machine: &Leader,
    names: &[MsgName],
    kind: &Kind,
) -> Result<Deed, NoMemory>
    ensures { IfOk result (λ deed. deed ≡ leader_deed machine.now names.now kind.now) }
{
    match *kind {
        Kind::Query(leader) => query_deed(alloc, machine, names, leader),
        Kind::Local => local_deed(alloc, machine, names),
        Kind::Learn => Ok(learn_deed(machine, names)),
        _ => Ok(Deed::Nothing),
    }
}
