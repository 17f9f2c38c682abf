//! What a step carries: the payload of a message, or what a register holds.

ghost use Rattle.cdb_explain.specs.Explanations.{cell_detail, detail_text, kind_detail, message_detail};
ghost use Rattle.cdb_message.specs.Mail.{payload_of};
ghost use Rattle.cdb_rules.specs.ByRules.{cell_in, mail_in};
ghost use Rattle.cdb_text.specs.Pushes.{Pushes};
ghost use Rattle.std.specs.Prelude.{Some};

use cdb_base::{Cell, Event, Kind, MsgName, Proc, Reg};
use cdb_rules::Runs;
use cdb_text::{push_payload, push_value};
use std::alloc::AllocError;

/// Adds the payload of a message after a space, where it was sent.
fn push_message<T: Runs>(text: &mut String, run: &T, name: MsgName) -> Result<(), AllocError>
    ensures { Pushes result text.old text.new
        (message_detail (payload_of (mail_in T.rules (T.run run.now)) name)) }
{
    match run.payload(name) {
        Some(payload) => {
            text.push_str(" ")?;
            push_payload(text, payload)
        }
        None => Ok(()),
    }
}

/// Adds what a cell holds after a space.
fn push_held(text: &mut String, register: Reg, cell: &Cell) -> Result<(), AllocError>
    ensures { Pushes result text.old text.new (cell_detail register (Some cell.now)) }
{
    match register {
        Reg::R(_) => {
            let lre = cell.lre;
            let lrww = cell.lrww;
            write!(text, " lre {lre} lrww {lrww} val ")?;
            push_value(text, cell.val)
        }
        Reg::Dec => {
            text.push_str(" ")?;
            push_value(text, cell.val)
        }
    }
}

/// Adds what a register holds after a space, where the run has it.
fn push_register<T: Runs>(text: &mut String, run: &T, register: Reg) -> Result<(), AllocError>
    ensures { Pushes result text.old text.new
        (cell_detail register (cell_in T.rules (T.run run.now) register)) }
{
    let again = register;
    match run.cell(again) {
        Some(cell) => push_held(text, register, &cell),
        None => Ok(()),
    }
}

/// Adds what a step of that kind sent or received, read or wrote, where the run stands after it.
fn push_kind<T: Runs>(text: &mut String, run: &T, p: Proc, kind: Kind) -> Result<(), AllocError>
    ensures { Pushes result text.old text.new (kind_detail T.rules (T.run run.now) p kind) }
{
    match kind {
        Kind::Send(m) => push_message(text, run, MsgName { s: p, m }),
        Kind::Recv(s, m) => push_message(text, run, MsgName { s, m }),
        Kind::Read(register) | Kind::Write(register) => push_register(text, run, register),
        Kind::Query(_) | Kind::Local | Kind::Learn | Kind::Crash => Ok(()),
    }
}

/// Adds what the last event of the run sent or received, read or wrote. Only out of memory is an error.
pub(crate) fn push_detail<T: Runs>(
    text: &mut String,
    run: &T,
    event: &Event,
) -> Result<(), AllocError>
    ensures { Pushes result text.old text.new
        (detail_text T.rules (T.run run.now) event.now) }
{
    match *event {
        Event::Step { p, kind, .. } => push_kind(text, run, p, kind),
        Event::Lost(_) => Ok(()),
    }
}
