//! The inbox: the messages that a machine has received.

ghost use Rattle.std.specs.Prelude.{◌≡◌, IsTrue, ◌↔◌, [], ◌∷◌, ◌++◌, OnOk, OnErr, All, is_some, slice_get};
ghost use Rattle.std.specs.Option.{option_copied, option_and_then};
ghost use Rattle.cdb_base.specs.Positions.{without_last};
ghost use Rattle.cdb_base.specs.Processes.{all_processes};
ghost use Rattle.cdb_leader.specs.Inbox.{first_phase, second_phase, as_decision, first_phase_from, second_phase_from};
ghost use Rattle.cdb_leader.specs.Inbox.{decision_from, first_phase_senders, backers, is_agreed, agreed_leader};
ghost use Rattle.cdb_leader.specs.Inbox.{agreed_estimate, second_phase_senders, proposal, carries, is_only_proposal};
ghost use Rattle.cdb_leader.specs.Inbox.{learnt};
ghost use Rattle.cdb_leader.specs.Index.{known, from_kept, AreFirsts, IsRowOf};

use crate::firsts::Firsts;
use crate::index::Index;
use crate::later;
use crate::row::Row;
use crate::spot::{KNOWN, Spot};
use cdb_base::{NoMemory, Payload, Proc, Val};
use std::alloc::Global;
use std::marker::Model;

/// A message that was received, and its sender.
#[derive(Clone, Copy, PartialEq, Eq)]
pub struct Received {
    pub from: Proc,
    pub payload: Payload,
}

/// What a first-phase message says of its sender.
#[derive(Clone, Copy)]
pub struct FirstPhase {
    pub estimate: Val,
    pub lead: Proc,
}

impl Received {
    ghost use Rattle.cdb_leader.specs.Inbox.{first_phase, second_phase, as_decision, if_from};
    ghost use Rattle.cdb_leader.specs.Index.{message_round};

    /// The round of a first-phase or second-phase message.
    pub(crate) fn round(&self) -> Option<u32>
        ensures { result ≡ message_round self.now.payload }
    {
        match self.payload {
            Payload::P1 { round, .. } | Payload::P2 { round, .. } => Some(round),
            Payload::D { .. } => None,
        }
    }

    /// What the message carries as a second-phase message of that round.
    pub(crate) fn vote(&self, in_round: u32) -> Option<Option<Val>>
        ensures { result ≡ second_phase in_round self.now.payload }
    {
        match self.payload {
            Payload::P2 { round, aux } if round == in_round => Some(aux),
            _ => None,
        }
    }

    /// The message as a first-phase message of that round from that sender.
    pub fn first_phase(&self, in_round: u32, sender: Proc) -> Option<FirstPhase>
        ensures { result ≡ if_from sender (first_phase in_round) self.now }
    {
        match self.payload {
            Payload::P1 { round, est, lead } if round == in_round && self.from == sender => {
                Some(FirstPhase {
                    estimate: est,
                    lead,
                })
            }
            _ => None,
        }
    }

    /// The message as a second-phase message of that round from that sender.
    pub fn second_phase(&self, in_round: u32, sender: Proc) -> Option<Option<Val>>
        ensures { result ≡ if_from sender (second_phase in_round) self.now }
    {
        match self.payload {
            Payload::P2 { round, aux } if round == in_round && self.from == sender => Some(aux),
            _ => None,
        }
    }

    /// The message as a decision of that sender.
    pub fn decision(&self, sender: Proc) -> Option<Val>
        ensures { result ≡ if_from sender as_decision self.now }
    {
        match self.payload {
            Payload::D { est } if self.from == sender => Some(est),
            _ => None,
        }
    }
}

/// The message at the position that is kept, if one is.
pub(crate) fn message_at(messages: &[Received], kept: Spot) -> Option<&Received>
    ensures { option_copied result ≡ option_and_then (slice_get messages.now) kept }
{
    messages.get(kept.position()?)
}

/// Whether a vote carries that value, if one is there.
pub(crate) fn carries(vote: Option<Option<Val>>, value: Val) -> bool
    ensures { result ≡ carries value vote }
{
    vote.is_none_or(|aux| aux == Some(value))
}

/// The messages that a process has received. A contract sees the list of them, in the order of
/// receipt. Beside the list stands an index of its first 65,535, so that no question goes over these.
#[derive(Drop)]
pub struct Inbox {
    messages: Vec<Received>,
    index: Index,
}

impl Model for Inbox {
    ghost use Rattle.std.specs.Prelude.{List};
    ghost use Rattle.cdb_leader.specs.declared.inbox.Received.{Received};
    ghost use Rattle.cdb_leader.specs.Index.{known, IsIndexOf};

    ghost Value = { List Received };

    ghost view = { λ x. x.messages.items };

    ghost invariant = { λ x. IsIndexOf x.index (known x.messages.items) };
}

impl Inbox {
    /// Nothing was received.
    #[tactic(auto, unfolding(crate::specs::Index::known))]
    pub(crate) fn new(alloc: Global) -> Self
        ensures { result ≡ [] }
    {
        Inbox {
            messages: Vec::new(alloc),
            index: Index::new(alloc),
        }
    }

    /// Adds a message at the end. Where an allocation fails, the inbox is as it was.
    pub(crate) fn push(&mut self, message: &Received) -> Result<(), NoMemory>
        ensures ok { OnOk result (self.new ≡ self.old ++ message.now ∷ []) }
        ensures err { OnErr result (self.new ≡ self.old) }
    {
        self.messages.reserve(1)?;
        self.index.note(&self.messages, message)?;
        self.messages.push_reserved(*message);
        Ok(())
    }

    /// Takes the last message out, if there is one. It allocates nothing.
    pub(crate) fn pop(&mut self)
        ensures { self.new ≡ without_last self.old }
    {
        if let Some(message) = self.messages.pop() {
            self.index.forget(&self.messages, &message);
        }
    }

    /// The messages, in the order of receipt.
    pub(crate) fn messages(&self) -> &[Received]
        ensures { result.now ≡ self.now }
    {
        &self.messages
    }

    /// Whether the index knows every message.
    fn knows_all(&self) -> bool
        ensures { IsTrue result → known self.now ≡ self.now }
    {
        self.messages.len() <= KNOWN
    }

    /// The messages that the index knows.
    fn known(&self) -> &[Received]
        ensures { result.now ≡ known self.now }
    {
        &self.messages[..KNOWN.min(self.messages.len())]
    }

    /// The messages from the position on that is kept; where none is, those that the index does not know.
    fn from(&self, kept: Spot) -> &[Received]
        ensures { result.now ≡ from_kept kept self.now }
    {
        let start = kept.position().unwrap_or(KNOWN);
        &self.messages[start.min(self.messages.len())..]
    }

    /// The first-phase message of the round from that sender, by what is kept of the round.
    #[tactic(auto, using(crate::proofs::IndexLaws::read_from))]
    fn first_phase_at(&self, kept: &Firsts, round: u32, sender: Proc) -> Option<FirstPhase>
        ensures { AreFirsts (first_phase round) kept.now (known self.now)
            → result ≡ first_phase_from round sender self.now }
    {
        later::find_first_phase(self.from(kept.get(sender)), round, sender)
    }

    /// The second-phase message of the round from that sender, by what is kept of the round.
    #[tactic(auto, using(crate::proofs::IndexLaws::read_from))]
    fn second_phase_at(&self, kept: &Firsts, round: u32, sender: Proc) -> Option<Option<Val>>
        ensures { AreFirsts (second_phase round) kept.now (known self.now)
            → result ≡ second_phase_from round sender self.now }
    {
        later::find_second_phase(self.from(kept.get(sender)), round, sender)
    }

    /// The first decision of that sender.
    #[tactic(auto, using(crate::proofs::IndexLaws::read_from))]
    fn find_decision(&self, sender: Proc) -> Option<Val>
        ensures { result ≡ decision_from sender self.now }
    {
        later::find_decision(self.from(self.decisions().get(sender)), sender)
    }

    /// Where the first messages of that round stand.
    fn row(&self, round: u32) -> &Row
        ensures { IsRowOf round result.now (known self.now) }
    {
        self.index.row(round)
    }

    /// Where the first decisions stand.
    fn decisions(&self) -> &Firsts
        ensures { AreFirsts as_decision result.now (known self.now) }
    {
        &self.index.decisions
    }

    /// Whether a first-phase message of that round came from that sender.
    pub(crate) fn has_first_phase(&self, round: u32, sender: Proc) -> bool
        ensures { result ≡ is_some (first_phase_from round sender self.now) }
    {
        self.first_phase_at(&self.row(round).first_phases, round, sender)
            .is_some()
    }

    /// From how many different senders a first-phase message of that round came.
    pub(crate) fn count_first_phase(&self, round: u32) -> usize
        ensures { result ≡ first_phase_senders round self.now }
    {
        if self.knows_all() {
            return self.row(round).first_phases.count();
        }
        let kept = &self.row(round).first_phases;
        Proc::all()
            .iter()
            .filter(|sender| self.first_phase_at(kept, round, **sender).is_some())
            .count()
    }

    /// From how many different senders a second-phase message of that round came.
    pub(crate) fn count_second_phase(&self, round: u32) -> usize
        ensures { result ≡ second_phase_senders round self.now }
    {
        if self.knows_all() {
            return self.row(round).second_phases.count();
        }
        let kept = &self.row(round).second_phases;
        Proc::all()
            .iter()
            .filter(|sender| self.second_phase_at(kept, round, **sender).is_some())
            .count()
    }

    /// How many senders name that process as leader in the round, by what is kept of the round.
    fn count_backers(&self, kept: &Firsts, round: u32, leader: Proc) -> usize
        requires { AreFirsts (first_phase round) kept.now (known self.now) }
        ensures { result ≡ backers round leader self.now }
    {
        Proc::all()
            .iter()
            .filter(|sender| {
                self.first_phase_at(kept, round, **sender)
                    .is_some_and(|said| said.lead == leader)
            })
            .count()
    }

    /// Whether at least `quorum` senders do, and its own first-phase message came.
    fn is_agreed(&self, kept: &Firsts, round: u32, quorum: u8, leader: Proc) -> bool
        requires { AreFirsts (first_phase round) kept.now (known self.now) }
        ensures { result ≡ is_agreed quorum round self.now leader }
    {
        usize::from(quorum) <= self.count_backers(kept, round, leader)
            && self.first_phase_at(kept, round, leader).is_some()
    }

    /// The least process that at least `quorum` senders name as leader in that round, and whose own first-phase message
    /// came.
    pub(crate) fn find_agreed_leader(&self, round: u32, quorum: u8) -> Option<Proc>
        ensures { result ≡ agreed_leader quorum round self.now }
    {
        let kept = &self.row(round).first_phases;
        for leader in Proc::all() {
            if self.is_agreed(kept, round, quorum, leader) {
                return Some(leader);
            }
        }
        None
    }

    /// The estimate of that process.
    pub(crate) fn find_agreed_estimate(&self, round: u32, quorum: u8) -> Option<Val>
        ensures { result ≡ agreed_estimate quorum round self.now }
    {
        let leader = self.find_agreed_leader(round, quorum)?;
        let own = self.first_phase_at(&self.row(round).first_phases, round, leader)?;
        Some(own.estimate)
    }

    /// The value in the second-phase message of that round from the least sender whose message has
    /// one.
    pub(crate) fn find_proposal(&self, round: u32) -> Option<Val>
        ensures { result ≡ proposal round self.now }
    {
        let kept = &self.row(round).second_phases;
        for sender in Proc::all() {
            if let Some(Some(value)) = self.second_phase_at(kept, round, sender) {
                return Some(value);
            }
        }
        None
    }

    /// Whether every second-phase message of that round that the index knows carries the value.
    fn known_propose(&self, round: u32, value: Val) -> bool
        ensures { result ≡ is_only_proposal round value (known self.now) }
    {
        let row = self.row(round);
        carries(row.find_vote(round, self.known()), value) && !row.has_other_vote()
    }

    /// Whether every second-phase message of that round carries the value.
    pub(crate) fn all_propose(&self, round: u32, value: Val) -> bool
        ensures { result ≡ is_only_proposal round value self.now }
    {
        self.known_propose(round, value)
            && later::all_propose(self.from(Spot::empty()), round, value)
    }

    /// The first decision of the least sender that sent one, where one may have come.
    // Few steps get there, and a caller that had it inside would do more for each.
    #[inline(never)]
    fn look_for_learnt(&self) -> Option<Val>
        ensures { result ≡ learnt self.now }
    {
        for sender in Proc::all() {
            if let Some(value) = self.find_decision(sender) {
                return Some(value);
            }
        }
        None
    }

    /// The first decision of the least sender that sent one.
    #[tactic(auto, using(crate::proofs::IndexLaws::no_decision))]
    pub(crate) fn find_learnt(&self) -> Option<Val>
        ensures { result ≡ learnt self.now }
    {
        if self.decisions().is_empty() && self.knows_all() {
            return None;
        }
        self.look_for_learnt()
    }

    /// Whether the inboxes have the same messages, in the same order.
    pub(crate) fn is_same(&self, other: &Self) -> bool
        ensures { IsTrue result ↔ (self.now ≡ other.now) }
    {
        self.messages == other.messages
    }
}
