//! What the messages say that no index knows: they are looked through.

ghost use Rattle.std.specs.Prelude.{◌≡◌};
ghost use Rattle.cdb_leader.specs.Inbox.{first_phase_from, second_phase_from, decision_from, is_only_proposal};

use crate::inbox::{FirstPhase, Received, carries};
use cdb_base::{Proc, Val};

/// The first-phase message of that round from that sender.
pub fn find_first_phase(messages: &[Received], round: u32, sender: Proc) -> Option<FirstPhase>
    ensures { result ≡ first_phase_from round sender messages.now }
{
    for message in messages {
        if let Some(said) = message.first_phase(round, sender) {
            return Some(said);
        }
    }
    None
}

/// The second-phase message of that round from that sender.
pub fn find_second_phase(messages: &[Received], round: u32, sender: Proc) -> Option<Option<Val>>
    ensures { result ≡ second_phase_from round sender messages.now }
{
    for message in messages {
        if let Some(aux) = message.second_phase(round, sender) {
            return Some(aux);
        }
    }
    None
}

/// The decision of that sender.
pub fn find_decision(messages: &[Received], sender: Proc) -> Option<Val>
    ensures { result ≡ decision_from sender messages.now }
{
    for message in messages {
        if let Some(value) = message.decision(sender) {
            return Some(value);
        }
    }
    None
}

/// Whether every second-phase message of that round carries the value.
pub(crate) fn all_propose(messages: &[Received], round: u32, value: Val) -> bool
    ensures { result ≡ is_only_proposal round value messages.now }
{
    messages
        .iter()
        .all(|message| carries(message.vote(round), value))
}
