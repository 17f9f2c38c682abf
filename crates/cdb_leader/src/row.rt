//! What an index holds of one round.

ghost use Rattle.std.specs.Prelude.{◌≡◌, ◌<◌, ℕ, Some, ◌++◌, ◌∷◌, [], length, is_some, if◌then◌else◌};
ghost use Rattle.cdb_leader.specs.Spot.{noted, forgotten};
ghost use Rattle.cdb_leader.specs.Index.{message_round, ChangesFrom, vote_in, are_different, IsRowOf, IsEmptyRow};

use crate::firsts::Firsts;
use crate::inbox::{Received, message_at};
use crate::spot::{KNOWN, Position, Spot};
use cdb_base::{Payload, Proc, Val};

/// Where in an inbox the first messages of one round stand.
#[derive(Clone, Copy)]
pub struct Row {
    pub(crate) first_phases: Firsts,
    pub(crate) second_phases: Firsts,
    vote: Spot,
    other_vote: Spot,
}

/// Whether the vote that came first is there and carries something else.
fn is_different(vote: Option<Option<Val>>, aux: Option<Val>) -> bool
    ensures { result ≡ are_different vote (Some aux) }
{
    match vote {
        Some(first) => first != aux,
        None => false,
    }
}

impl Row {
    /// Nothing is kept.
    pub(crate) fn new() -> Self
        ensures { IsEmptyRow result }
    {
        Row {
            first_phases: Firsts::new(),
            second_phases: Firsts::new(),
            vote: Spot::empty(),
            other_vote: Spot::empty(),
        }
    }

    /// What the first second-phase message of the round carries, whoever sent it.
    pub(crate) fn find_vote(&self, round: u32, messages: &[Received]) -> Option<Option<Val>>
        ensures { IsRowOf round self.now messages.now → result ≡ vote_in round messages.now }
    {
        message_at(messages, self.vote)?.vote(round)
    }

    /// Whether a second-phase message of the round carries something else than the first.
    pub(crate) fn has_other_vote(&self) -> bool
        ensures { result ≡ is_some self.now.other_vote }
    {
        self.other_vote.is_kept()
    }

    fn note_vote(&mut self, sender: Proc, position: Position, other: bool)
        requires { position < KNOWN }
        ensures first_phases { self.new.first_phases ≡ self.old.first_phases }
        ensures second_phases { ChangesFrom sender
            (noted position) self.old.second_phases self.new.second_phases }
        ensures vote { self.new.vote ≡ noted position self.old.vote }
        ensures other_vote { self.new.other_vote
            ≡ (if other then noted position self.old.other_vote else self.old.other_vote) }
    {
        self.second_phases.note(sender, position);
        self.vote = self.vote.noted(position);
        if other {
            self.other_vote = self.other_vote.noted(position);
        }
    }

    fn forget_vote(&mut self, sender: Proc, position: Position)
        ensures first_phases { self.new.first_phases ≡ self.old.first_phases }
        ensures second_phases { ChangesFrom sender
            (forgotten position) self.old.second_phases self.new.second_phases }
        ensures vote { self.new.vote ≡ forgotten position self.old.vote }
        ensures other_vote { self.new.other_vote ≡ forgotten position self.old.other_vote }
    {
        self.second_phases.forget(sender, position);
        self.vote = self.vote.forgotten(position);
        self.other_vote = self.other_vote.forgotten(position);
    }

    /// Notes a message of the round, which comes after those.
    pub(crate) fn note(&mut self, round: u32, messages: &[Received], message: &Received)
        requires { length messages.now < KNOWN }
        ensures { message_round message.now.payload ≡ Some round
            → IsRowOf round self.old messages.now
            → IsRowOf round self.new (messages.now ++ message.now ∷ []) }
    {
        let position = messages.len();
        match message.payload {
            Payload::P1 { .. } => self.first_phases.note(message.from, position),
            Payload::P2 { aux, .. } => {
                let other = is_different(self.find_vote(round, messages), aux);
                self.note_vote(message.from, position, other);
            }
            Payload::D { .. } => {}
        }
    }

    /// Forgets a message of the round, which came after those.
    pub(crate) fn forget(&mut self, round: u32, messages: &[Received], message: &Received)
        ensures { message_round message.now.payload ≡ Some round
            → IsRowOf round self.old (messages.now ++ message.now ∷ [])
            → IsRowOf round self.new messages.now }
    {
        match message.payload {
            Payload::P1 { .. } => self.first_phases.forget(message.from, messages.len()),
            Payload::P2 { .. } => self.forget_vote(message.from, messages.len()),
            Payload::D { .. } => {}
        }
    }
}
