//! What a session can ask for.

use cdb_base::{Act, Reg};

/// What a breakpoint waits for. It looks at the steps that `step` and `auto` take.
#[derive(Clone, Copy, PartialEq, Eq)]
pub enum Stop {
    /// A step that gives the process its decision.
    Decide(u32),
    /// A step of the process that takes its round to this number from another.
    Round(u32, u32),
    /// A receive by the process.
    Recv(u32),
    /// A write of the register.
    Write(Reg),
}

/// What is to be shown.
#[derive(Clone, Copy, PartialEq, Eq)]
pub enum View {
    Proc(u32),
    Regs,
    Mail,
    History,
}

/// A command of a session. The numbers are as the session gave them; those of a loss are the sender
/// and the number of the message, and the process for which the copy was meant.
#[derive(Clone, Copy, PartialEq, Eq)]
pub enum Command {
    Step(u32, Act),
    Auto(u32),
    Lose(u32, u32, u32),
    Undo(u32, u32),
    UndoLost(u32, u32, u32),
    Redo,
    Forget,
    Rollback(u32, u32),
    RollbackLost(u32, u32, u32),
    Why(u32, u32),
    WhyLost(u32, u32, u32),
    Break(Stop),
    Unbreak(u32),
    Resume,
    Show(View),
    Decisions,
}
