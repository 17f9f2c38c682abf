//! The commands that name an event.

ghost use Rattle.std.specs.Prelude.{◌≡◌};
ghost use Rattle.cdb_text.specs.Verbs.{on_step, on_loss};

use cdb_commands::Command;

/// What is to be done with an event that a line names.
#[derive(Clone, Copy)]
pub(crate) enum Verb {
    Undo,
    Rollback,
    Why,
}

impl Verb {
    /// The command on the step of that process and number.
    pub(crate) fn on_step(self, p: u32, k: u32) -> Command
        ensures { result ≡ on_step self p k }
    {
        match self {
            Verb::Undo => Command::Undo(p, k),
            Verb::Rollback => Command::Rollback(p, k),
            Verb::Why => Command::Why(p, k),
        }
    }

    /// The command on the loss of the copy for `p` of the message of that sender and number.
    pub(crate) fn on_loss(self, s: u32, m: u32, p: u32) -> Command
        ensures { result ≡ on_loss self s m p }
    {
        match self {
            Verb::Undo => Command::UndoLost(s, m, p),
            Verb::Rollback => Command::RollbackLost(s, m, p),
            Verb::Why => Command::WhyLost(s, m, p),
        }
    }
}
