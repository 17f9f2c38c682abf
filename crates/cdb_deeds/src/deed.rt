//! What a step did.

ghost use Rattle.std.specs.Prelude.{◌≡◌, ◌++◌, ◌∷◌, [], OnOk};

use cdb_base::{MsgName, NoMemory, Proc, Val};
use std::alloc::Global;
use std::marker::Model;

/// A value, and the message that brought it.
#[derive(Clone, Copy)]
pub struct Source {
    pub value: Val,
    pub message: MsgName,
}

/// The names of messages, at most one of each sender, by sender. A contract sees the list of them.
#[derive(Drop)]
pub struct Messages {
    names: Vec<MsgName>,
}

impl Model for Messages {
    ghost use Rattle.std.specs.Prelude.{List};
    ghost use Rattle.cdb_base.specs.declared.name.MsgName.{MsgName};

    ghost Value = { List MsgName };

    ghost view = { λ x. x.names.items };
}

impl Messages {
    /// No message.
    pub(crate) fn none(alloc: Global) -> Self
        ensures { result ≡ [] }
    {
        Messages {
            names: Vec::new(alloc),
        }
    }

    /// Adds a name at the end.
    pub(crate) fn push(&mut self, name: MsgName) -> Result<(), NoMemory>
        ensures { OnOk result (self.new ≡ self.old ++ name ∷ []) }
    {
        self.names.push(name)?;
        Ok(())
    }

    /// The names, by sender.
    pub fn names(&self) -> &[MsgName]
        ensures { result.now ≡ self.now }
    {
        &self.names
    }
}

/// What a step did: what it settled, and from which messages or registers.
#[derive(Drop)]
pub enum Deed {
    /// Nothing that its kind doesn't say.
    Nothing,
    /// It began that round.
    Round(u32),
    /// It settled its vote: the value of the leader that a quorum named, by the messages that name it.
    Votes {
        source: Source,
        leader: Proc,
        by: Messages,
    },
    /// It settled that it votes for no value.
    VotesNone {
        by: Messages,
    },
    /// It settled the value that it decides next.
    Settles {
        source: Source,
        by: Messages,
    },
    /// It took a value over into the next round.
    Adopts {
        source: Source,
        by: Messages,
    },
    /// It kept its own value.
    Keeps {
        value: Val,
        by: Messages,
    },
    /// It took over a decision.
    Learns(Source),
    /// It settled the value of the register of that number.
    SettlesRegister {
        value: Val,
        register: usize,
    },
    /// It settled its own input.
    SettlesInput(Val),
    /// It gave that round up, since the register of that number was entered in a later one.
    GivesUp {
        round: u32,
        register: usize,
    },
    /// It carried that round through.
    Carries(u32),
}
