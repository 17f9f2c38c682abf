//! An event by the numbers that a session gives.
ghost use Rattle.std.specs.Prelude.{◌≡◌, IfSome, IsSome};
ghost use Rattle.cdb_rules.specs.EventRefs.{name_given, CanName};

use cdb_base::{CopyName, MsgName, Proc, StepId, StepName};

/// An event, by the numbers that a session gives. Whether such an event stands is found where it is looked for.
#[derive(Clone, Copy)]
pub enum EventRef {
    /// The process, and the number of its step.
    Step(u32, u32),
    /// The sender and the number of the message, and the process for which the lost copy was meant.
    Lost(u32, u32, u32),
}

impl EventRef {
    /// The name, where its numbers fit into one.
    pub fn id(self) -> Option<StepId>
        ensures value { IfSome result (λ id. id ≡ name_given self) }
        ensures some { CanName self → IsSome result }
    {
        match self {
            EventRef::Step(p, k) => Some(StepId::Step(StepName {
                p: Proc::from_number(p)?,
                k: u16::try_from(k).ok()?,
            })),
            EventRef::Lost(s, m, p) => {
                let msg = MsgName {
                    s: Proc::from_number(s)?,
                    m: u16::try_from(m).ok()?,
                };
                let to = Proc::from_number(p)?;
                Some(StepId::Lost(CopyName { msg, to }))
            }
        }
    }
}
