//! The machine of one process of leader-based consensus.

ghost use Rattle.std.specs.Prelude.{◌≡◌, ℕ, ◌<◌, ◌↔◌, Option, Some, None, IsTrue, IsSome, IfOk, OnErr, is_some, false};

use crate::back::{Back, Before};
use crate::inbox::{Inbox, Received};
use crate::place::Place;
use cdb_base::limits::MAX_ROUND;
use cdb_base::{NoMemory, Payload, Proc, Val};
use cdb_process::{Input, Process, SameState, Wish};
use std::alloc::Global;
use std::marker::Model;

/// The leader machine of one process. A contract sees its local state.
#[derive(Drop)]
pub struct Leader {
    quorum: u8,
    place: Place,
    round: u32,
    estimate: Val,
    lead: Option<Proc>,
    aux: Option<Val>,
    inbox: Inbox,
    decision: Option<Val>,
}

impl Model for Leader {
    ghost use Rattle.std.specs.Prelude.{◌≡◌, is_some};
    ghost use Rattle.cdb_leader.specs.LocalState.{LocalState};
    ghost use Rattle.cdb_leader.specs.Place.{is_last};

    ghost Value = { LocalState };

    ghost view = { λ x. record {
      quorum = x.quorum;
      place = x.place;
      round = x.round;
      estimate = x.estimate;
      lead = x.lead;
      aux = x.aux;
      inbox = x.inbox;
      decision = x.decision;
    } };

    ghost invariant = { λ x. is_some x.decision ≡ is_last x.place };
}

impl Leader {
    ghost use Rattle.cdb_leader.specs.LocalState.{LocalState};
    ghost use Rattle.cdb_leader.specs.Table.{heard_first_phase, heard_second_phase, heard_lead, set_aux, end_round};
    ghost use Rattle.cdb_leader.specs.Table.{query_at, payload_at, send_at, local_at, learn_at, recv_at};
    ghost use Rattle.cdb_leader.specs.Place.{is_last};
    ghost use Rattle.cdb_leader.specs.Inbox.{agreed_leader, is_only_proposal, proposal};
    ghost use Rattle.cdb_leader.specs.Back.{state_before};

    /// Where the process stands in its round.
    pub fn stands_at(&self) -> Place
        ensures { result ≡ self.now.place }
    {
        self.place
    }

    /// From how many processes a phase has to come.
    pub fn quorum(&self) -> u8
        ensures { result ≡ self.now.quorum }
    {
        self.quorum
    }

    /// The value that the process holds.
    pub fn estimate(&self) -> Val
        ensures { result ≡ self.now.estimate }
    {
        self.estimate
    }

    /// The leader that the oracle named when the round began.
    pub fn lead(&self) -> Option<Proc>
        ensures { result ≡ self.now.lead }
    {
        self.lead
    }

    /// What came of the first phase.
    pub fn aux(&self) -> Option<Val>
        ensures { result ≡ self.now.aux }
    {
        self.aux
    }

    /// The messages that the process has received, in the order of receipt.
    pub fn received(&self) -> &[Received]
        ensures { result.now ≡ self.now.inbox }
    {
        self.inbox.messages()
    }

    /// Whether the first phase of the round came from at least as many senders as the quorum.
    pub fn heard_first_phase(&self) -> bool
        ensures { result ≡ heard_first_phase self.now }
    {
        usize::from(self.quorum) <= self.inbox.count_first_phase(self.round)
    }

    /// Whether the second phase of the round did.
    fn heard_second_phase(&self) -> bool
        ensures { result ≡ heard_second_phase self.now }
    {
        usize::from(self.quorum) <= self.inbox.count_second_phase(self.round)
    }

    /// The least process that a quorum of the senders names as leader in the round, and whose own first-phase message
    /// came.
    pub fn agreed_leader(&self) -> Option<Proc>
        ensures { result ≡ agreed_leader self.now.quorum self.now.round self.now.inbox }
    {
        self.inbox.find_agreed_leader(self.round, self.quorum)
    }

    /// Whether every second-phase message of the round carries the value.
    pub fn all_propose(&self, proposed: Val) -> bool
        ensures { result ≡ is_only_proposal self.now.round proposed self.now.inbox }
    {
        self.inbox.all_propose(self.round, proposed)
    }

    /// Whether the first phase of the round came from the process that the oracle named.
    fn heard_lead(&self) -> bool
        ensures { result ≡ heard_lead self.now }
    {
        self.lead
            .is_some_and(|lead| self.inbox.has_first_phase(self.round, lead))
    }

    /// The payload that the process would send.
    fn payload(&self) -> Option<Payload>
        ensures { result ≡ payload_at self.now.place self.now }
    {
        match self.place {
            Place::L1 => {
                let lead = self.lead?;
                Some(Payload::P1 {
                    round: self.round,
                    est: self.estimate,
                    lead,
                })
            }
            Place::L3 => Some(Payload::P2 {
                round: self.round,
                aux: self.aux,
            }),
            Place::L5 => Some(Payload::D { est: self.estimate }),
            _ => None,
        }
    }

    /// Whether the process can go on by itself.
    fn goes_on(&self) -> bool
        ensures { result ≡ is_some (local_at self.now.place self.now) }
    {
        match self.place {
            Place::L2 => self.heard_first_phase() && self.heard_lead(),
            Place::L4 => self.heard_second_phase(),
            _ => false,
        }
    }

    /// Whether a decision was received that the process can adopt.
    fn can_learn(&self) -> bool
        ensures { result ≡ is_some (learn_at self.now.place self.now) }
    {
        match self.place {
            Place::L5 | Place::L6 => false,
            _ => self.inbox.find_learnt().is_some(),
        }
    }

    /// Whether a query is accepted.
    fn can_query(&self) -> bool
        ensures { (l : ℕ) → result ≡ is_some (query_at self.now.place self.now l) }
    {
        match self.place {
            Place::L0 => self.round < MAX_ROUND,
            Place::L2 => true,
            _ => false,
        }
    }

    /// Begins a round, of which the oracle named the leader.
    fn begin_round(&mut self, leader: Proc) -> Back
        requires place { self.old.place ≡ Place.L0 }
        requires room { self.old.round < MAX_ROUND }
        ensures after { query_at Place.L0 self.old leader ≡ Some self.new }
        ensures back { state_before self.new result ≡ self.old }
    {
        let before = Before::Round {
            place: self.place,
            lead: self.lead,
            round: self.round,
        };
        self.round += 1;
        self.lead = Some(leader);
        self.place = Place::L1;
        Back { before }
    }

    /// Ends the first phase.
    fn set_aux(&mut self) -> Back
        requires { self.old.place ≡ Place.L2 }
        ensures after { self.new ≡ set_aux self.old }
        ensures back { state_before self.new result ≡ self.old }
    {
        let before = Before::Aux(self.place, self.aux);
        self.aux = self.inbox.find_agreed_estimate(self.round, self.quorum);
        self.place = Place::L3;
        Back { before }
    }

    /// Ends the second phase.
    fn end_round(&mut self) -> Back
        requires { self.old.place ≡ Place.L4 }
        ensures after { self.new ≡ end_round self.old (proposal self.old.round self.old.inbox) }
        ensures back { state_before self.new result ≡ self.old }
    {
        let before = Before::Estimate(self.place, self.estimate);
        self.place = Place::L0;
        if let Some(value) = self.inbox.find_proposal(self.round) {
            if self.inbox.all_propose(self.round, value) {
                self.place = Place::L5;
            }
            self.estimate = value;
        }
        Back { before }
    }

    /// Takes the answer to a query.
    fn query(&mut self, leader: Proc) -> Back
        requires { IsSome (query_at self.old.place self.old leader) }
        ensures after { query_at self.old.place self.old leader ≡ Some self.new }
        ensures back { state_before self.new result ≡ self.old }
    {
        match self.place {
            Place::L0 => self.begin_round(leader),
            Place::L2 => {
                if self.heard_first_phase() && self.lead != Some(leader) {
                    self.set_aux()
                } else {
                    Back {
                        before: Before::Place(self.place),
                    }
                }
            }
            _ => unreachable!(),
        }
    }

    /// Goes on after a send.
    fn send(&mut self) -> Back
        requires { IsSome (send_at self.old.place self.old) }
        ensures after { send_at self.old.place self.old ≡ Some self.new }
        ensures back { state_before self.new result ≡ self.old }
    {
        let before = Before::Place(self.place);
        match self.place {
            Place::L1 => self.place = Place::L2,
            Place::L3 => self.place = Place::L4,
            Place::L5 => {
                self.decision = Some(self.estimate);
                self.place = Place::L6;
            }
            _ => unreachable!(),
        }
        Back { before }
    }

    /// Goes on by itself.
    fn go_on(&mut self) -> Back
        requires { IsSome (local_at self.old.place self.old) }
        ensures after { local_at self.old.place self.old ≡ Some self.new }
        ensures back { state_before self.new result ≡ self.old }
    {
        match self.place {
            Place::L2 => self.set_aux(),
            Place::L4 => self.end_round(),
            _ => unreachable!(),
        }
    }

    /// Adopts a decision that was received.
    fn learn(&mut self) -> Back
        requires { IsSome (learn_at self.old.place self.old) }
        ensures after { learn_at self.old.place self.old ≡ Some self.new }
        ensures back { state_before self.new result ≡ self.old }
    {
        let before = Before::Estimate(self.place, self.estimate);
        if let Some(value) = self.inbox.find_learnt() {
            self.estimate = value;
            self.place = Place::L5;
        }
        Back { before }
    }

    /// Adds a message to the inbox.
    fn receive(&mut self, from: Proc, payload: Payload) -> Result<Back, NoMemory>
        requires { IsSome (recv_at self.old.place self.old from payload) }
        ensures after { IfOk result
            (λ _. recv_at self.old.place self.old from payload ≡ Some self.new) }
        ensures back { IfOk result (λ b. state_before self.new b ≡ self.old) }
        ensures unchanged { OnErr result (self.new ≡ self.old) }
    {
        self.inbox.push(&Received { from, payload })?;
        Ok(Back {
            before: Before::Inbox(self.place),
        })
    }
}

impl Process for Leader {
    ghost use Rattle.cdb_leader.specs.Machine.{leader_table};
    ghost use Rattle.cdb_leader.specs.Back.{state_before};
    ghost use Rattle.cdb_leader.specs.TableLaws as laws;

    type Back = Back;

    ghost table = { leader_table };

    ghost before = { state_before };

    ghost lawful = { laws.lawful };

    fn first(alloc: Global, _me: Proc, _n: u8, q: u8, input: Val) -> Result<Self, NoMemory> {
        Ok(Leader {
            quorum: q,
            place: Place::L0,
            round: 0,
            estimate: input,
            lead: None,
            aux: None,
            inbox: Inbox::new(alloc),
            decision: None,
        })
    }

    fn wish(&self) -> Option<Wish> {
        match self.payload() {
            Some(payload) => Some(Wish::Send(payload)),
            None if self.goes_on() => Some(Wish::Local),
            None => None,
        }
    }

    // Most callers ask about an input that they name, of which little is left to ask then.
    #[inline(always)]
    fn accepts(&self, i: &Input) -> bool {
        match i {
            Input::Query(_) => self.can_query(),
            Input::Send => self.payload().is_some(),
            Input::Recv(_, _) => self.place != Place::L6,
            Input::Local => self.goes_on(),
            Input::Learn => self.can_learn(),
            Input::Read(_, _) | Input::Write(_) => false,
        }
    }

    #[inline(always)]
    fn take(&mut self, _alloc: Global, i: Input) -> Result<Back, NoMemory> {
        match i {
            Input::Query(leader) => Ok(self.query(leader)),
            Input::Send => Ok(self.send()),
            Input::Recv(from, payload) => self.receive(from, payload),
            Input::Local => Ok(self.go_on()),
            Input::Learn => Ok(self.learn()),
            Input::Read(_, _) | Input::Write(_) => unreachable!(),
        }
    }

    fn put_back(&mut self, b: Back) {
        let Back { before } = b;
        self.decision = None;
        match before {
            Before::Place(place) => self.place = place,
            Before::Inbox(place) => {
                self.place = place;
                self.inbox.pop();
            }
            Before::Round { place, lead, round } => {
                self.place = place;
                self.lead = lead;
                self.round = round;
            }
            Before::Aux(place, aux) => {
                self.place = place;
                self.aux = aux;
            }
            Before::Estimate(place, estimate) => {
                self.place = place;
                self.estimate = estimate;
            }
        }
    }

    fn decision(&self) -> Option<Val> {
        self.decision
    }

    fn place(&self) -> u8 {
        self.place.number()
    }

    fn round(&self) -> u32 {
        self.round
    }
}

impl SameState for Leader {
    fn has_same_state(&self, other: &Self) -> bool {
        self.quorum == other.quorum
            && self.place == other.place
            && self.round == other.round
            && self.estimate == other.estimate
            && self.lead == other.lead
            && self.aux == other.aux
            && self.inbox.is_same(&other.inbox)
            && self.decision == other.decision
    }
}
