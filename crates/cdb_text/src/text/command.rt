//! The texts of commands.

ghost use Rattle.cdb_text.specs.Grammar.{printed};
ghost use Rattle.cdb_text.specs.Pushes.{Pushes};

use super::bytes::push_bytes;
use super::short::{MOST_BYTES, write_register};
use cdb_base::Act;
use cdb_commands::{Command, Stop, View};
use std::alloc::AllocError;

fn push_act(text: &mut String, p: u32, act: Act) -> Result<(), AllocError>
    ensures { Pushes result text.old text.new (printed (Command.Step p act)) }
{
    match act {
        Act::Go => write!(text, "step {p} go"),
        Act::Learn => write!(text, "step {p} learn"),
        Act::Crash => write!(text, "step {p} crash"),
        Act::Query(None) => write!(text, "step {p} query"),
        Act::Query(Some(leader)) => write!(text, "step {p} query {leader}"),
        Act::Recv(s, m) => write!(text, "step {p} recv {s} {m}"),
    }
}

fn push_stop(text: &mut String, stop: Stop) -> Result<(), AllocError>
    ensures { Pushes result text.old text.new (printed (Command.Break stop)) }
{
    match stop {
        Stop::Decide(p) => write!(text, "break decide {p}"),
        Stop::Round(p, r) => write!(text, "break round {p} {r}"),
        Stop::Recv(p) => write!(text, "break recv {p}"),
        Stop::Write(register) => {
            text.push_str("break write ")?;
            push_written!(text, write_register(register))
        }
    }
}

fn push_view(text: &mut String, view: View) -> Result<(), AllocError>
    ensures { Pushes result text.old text.new (printed (Command.Show view)) }
{
    match view {
        View::Proc(p) => write!(text, "show {p}"),
        View::Regs => text.push_str("show regs"),
        View::Mail => text.push_str("show mail"),
        View::History => text.push_str("show history"),
    }
}

/// Adds a command at the end of a text, as the grammar has it: the line that `parse_line` returns it for, where its
/// numbers are in range. Only out of memory is an error.
pub fn push_command(text: &mut String, command: &Command) -> Result<(), AllocError>
    ensures { Pushes result text.old text.new (printed command.now) }
{
    match *command {
        Command::Step(p, act) => push_act(text, p, act),
        Command::Auto(p) => write!(text, "auto {p}"),
        Command::Lose(s, m, p) => write!(text, "lose {s} {m} {p}"),
        Command::Undo(p, k) => write!(text, "undo {p} {k}"),
        Command::UndoLost(s, m, p) => write!(text, "undo lost {s} {m} {p}"),
        Command::Redo => text.push_str("redo"),
        Command::Forget => text.push_str("forget"),
        Command::Rollback(p, k) => write!(text, "rollback {p} {k}"),
        Command::RollbackLost(s, m, p) => write!(text, "rollback lost {s} {m} {p}"),
        Command::Why(p, k) => write!(text, "why {p} {k}"),
        Command::WhyLost(s, m, p) => write!(text, "why lost {s} {m} {p}"),
        Command::Break(stop) => push_stop(text, stop),
        Command::Unbreak(number) => write!(text, "unbreak {number}"),
        Command::Resume => text.push_str("resume"),
        Command::Show(view) => push_view(text, view),
        Command::Decisions => text.push_str("decisions"),
    }
}
