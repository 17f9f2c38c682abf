//! The replies to a session's commands.

use cdb_base::{Cell, Event, MsgName, Payload, Proc, ProcView, Refusal, StepId, Val};

/// The reply to a command.
#[derive(Drop)]
pub enum Reply {
    /// The event that was taken, the decision that it gave its process, and the breakpoint that it
    /// set a pause by.
    Stepped {
        event: Event,
        decides: Option<Val>,
        paused: Option<u32>,
    },
    Undone(Event),
    Redone {
        event: Event,
        decides: Option<Val>,
    },
    /// How many events were removed.
    RolledBack(u32),
    /// An event and its direct causes.
    Because(StepId, Vec<StepId>),
    BreakSet(u32),
    BreakGone(u32),
    Resumed,
    /// How many events the redo list held.
    Forgot(u32),
    Proc(ProcView),
    /// The cells of the processes' registers and then that of the decision; none where the algorithm
    /// has no registers.
    Regs(Vec<Cell>),
    /// The copies that were neither received nor lost: receiver, message and payload.
    Mail(Vec<(Proc, MsgName, Payload)>),
    History(Vec<Event>),
    Decisions(Vec<(Proc, Val)>),
    Refused(Refusal),
}

impl Reply {
    /// Gives the reply up. Code above drops a reply by this call, since the proof of what drops one goes through all
    /// its parts.
    pub fn close(self) {}
}
