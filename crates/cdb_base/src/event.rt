//! Events of a run: steps of processes, and losses of copies.

ghost use Rattle.std.specs.Prelude.{◌≡◌};
ghost use Rattle.cdb_base.specs.Event.{event_name, is_step_of};

use crate::name::{CopyName, Proc, StepId, StepName};
use crate::register::Reg;

/// What a step does. A send is named by its number among the sends of the process, a receive by its
/// message.
#[derive(Clone, Copy, PartialEq, Eq)]
pub enum Kind {
    Query(Proc),
    Send(u16),
    Recv(Proc, u16),
    Read(Reg),
    Write(Reg),
    Local,
    Learn,
    Crash,
}

/// What stands in a history: a step of a process, or the loss of a copy by the network.
#[derive(Clone, Copy, PartialEq, Eq)]
pub enum Event {
    /// The `k`-th standing step of process `p`, and what it does; in a run `k` is from 1 to 9,999.
    Step { p: Proc, k: u16, kind: Kind },
    Lost(CopyName),
}

impl Event {
    /// The name under which the event stands.
    pub fn name(&self) -> StepId
        ensures { result ≡ event_name self.now }
    {
        match *self {
            Event::Step { p, k, .. } => StepId::Step(StepName { p, k }),
            Event::Lost(copy) => StepId::Lost(copy),
        }
    }

    /// Whether the event is a step of process `p`.
    pub fn is_step_of(&self, p: Proc) -> bool
        ensures { result ≡ is_step_of p self.now }
    {
        match self {
            Event::Step { p: q, .. } => *q == p,
            Event::Lost(_) => false,
        }
    }
}
