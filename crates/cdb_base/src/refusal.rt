//! Why a command is refused.

ghost use Rattle.std.specs.Prelude.{◌≡◌, Some};
ghost use Rattle.cdb_base.specs.Refusal.{refusal_name, refusal_number, refusal_text};

use crate::name::StepId;
use std::error::Error;
use std::fmt;

/// Why a command was refused. Each refusal has one number, and no refusal has the number 18.
#[derive(Clone, Copy, Debug, PartialEq, Eq)]
pub enum Refusal {
    /// The process named is not one of 1 to n.
    NoProcess,
    /// A crash of the process stands.
    Crashed,
    /// The process has decided and takes no further step.
    Done,
    /// The machine of the process does not accept this kind of step now.
    NotNow,
    /// No message of that name was sent.
    NoMessage,
    /// The process has received that message.
    Taken,
    /// The answer given is not one of 1 to n.
    BadLeader,
    /// The setup has no answer for this query.
    NoAnswer,
    /// The process has as many standing steps as it may have.
    StepLimit,
    /// No such step stands.
    NoStep,
    /// A standing event depends on it: the first such in the order of the history.
    NeededBy(StepId),
    /// There is nothing to do for the process.
    Idle,
    /// A pause by the breakpoint of that number stands.
    Paused(u32),
    /// The redo list of the seat is empty.
    NothingToRedo,
    /// No such breakpoint stands.
    NoBreak,
    /// As many breakpoints stand as may stand.
    BreakLimit,
    /// The step to be redone is not the next one of its process.
    Moved,
    /// The copy of the message is lost.
    Lost,
    /// In runs of this setup no copy can be lost.
    NoLoss,
}

impl Refusal {
    /// The number under which the refusal is shown.
    pub fn number(&self) -> u8
        ensures { result ≡ refusal_number self.now }
    {
        match self {
            Refusal::NoProcess => 1,
            Refusal::Crashed => 2,
            Refusal::Done => 3,
            Refusal::NotNow => 4,
            Refusal::NoMessage => 5,
            Refusal::Taken => 6,
            Refusal::BadLeader => 7,
            Refusal::NoAnswer => 8,
            Refusal::StepLimit => 9,
            Refusal::NoStep => 10,
            Refusal::NeededBy(_) => 11,
            Refusal::Idle => 12,
            Refusal::Paused(_) => 13,
            Refusal::NothingToRedo => 14,
            Refusal::NoBreak => 15,
            Refusal::BreakLimit => 16,
            Refusal::Moved => 17,
            Refusal::Lost => 19,
            Refusal::NoLoss => 20,
        }
    }

    /// The name under which the refusal is shown: that of the variant, with nothing that it carries.
    pub fn name(&self) -> &'static str
        ensures { result.now ≡ refusal_name self.now }
    {
        match self {
            Refusal::NoProcess => "NoProcess",
            Refusal::Crashed => "Crashed",
            Refusal::Done => "Done",
            Refusal::NotNow => "NotNow",
            Refusal::NoMessage => "NoMessage",
            Refusal::Taken => "Taken",
            Refusal::BadLeader => "BadLeader",
            Refusal::NoAnswer => "NoAnswer",
            Refusal::StepLimit => "StepLimit",
            Refusal::NoStep => "NoStep",
            Refusal::NeededBy(_) => "NeededBy",
            Refusal::Idle => "Idle",
            Refusal::Paused(_) => "Paused",
            Refusal::NothingToRedo => "NothingToRedo",
            Refusal::NoBreak => "NoBreak",
            Refusal::BreakLimit => "BreakLimit",
            Refusal::Moved => "Moved",
            Refusal::Lost => "Lost",
            Refusal::NoLoss => "NoLoss",
        }
    }
}

/// `refused`, the number, the name, and what the refusal carries.
impl fmt::Display for Refusal {
    ghost output = { λ refusal. Some (refusal_text refusal) };

    fn fmt<W: fmt::Write>(&self, f: &mut fmt::Formatter<W>) -> fmt::Result {
        let (number, name) = (self.number(), self.name());
        match self {
            Refusal::NeededBy(event) => write!(f, "refused {number} {name} {event}"),
            Refusal::Paused(breakpoint) => write!(f, "refused {number} {name} {breakpoint}"),
            _ => write!(f, "refused {number} {name}"),
        }
    }
}

impl Error for Refusal {}
