//! What a process has sent in a round, received and adopted, for the inputs that it takes in turn from its first
//! local state, and what quorums are for. Each function does nothing: its contract is the law.

ghost use Rattle.cdb_leader.specs.Quorum.{MajoritiesMeet};
ghost use Rattle.cdb_leader.specs.Machine.{leader_table};
ghost use Rattle.cdb_leader.specs.Trace.{SentMessagesAreFounded, ReceivedIsBrought};
ghost use Rattle.cdb_leader.specs.Values.{HoldsValue};
ghost use Rattle.cdb_process.specs.Values.{MakesNoValue};

/// A process sends one first-phase and one second-phase message a round. Its estimate of a later round rests on
/// the votes of the round before, its vote with a value on a quorum that named one leader, and its decision on a
/// quorum of votes with that value, or on a decision that it received.
#[tactic(auto, using(crate::proofs::Promised::sent_messages_are_founded))]
pub fn sent_messages_are_founded()
    ensures { SentMessagesAreFounded }
{}

/// What a process has received after an input it had received before, or the input brought it.
pub fn received_messages_are_brought()
    ensures { ReceivedIsBrought }
{}

/// A process makes no value of its own: what it holds as estimate, aux or decision or in its inbox, it
/// held before, or a message brought it; before its first step it holds its input alone, and it sends
/// and decides what it holds.
#[tactic(auto, using(crate::proofs::Promised::no_value_is_made))]
pub fn no_value_is_made()
    ensures { MakesNoValue leader_table HoldsValue }
{}

/// Two quorums share a process, where a quorum is more than half of the processes.
pub fn majorities_meet()
    ensures { MajoritiesMeet }
{}
