//! The texts of what is shown, at the end of a text: processes, registers, mail, history and decisions.

ghost use Rattle.std.specs.Prelude.{◌+◌, ◌<◌, ◌^◌, length};
ghost use Rattle.std.specs.List.{flat_map};
ghost use Rattle.cdb_text.specs.Pushes.{Pushes};
ghost use Rattle.cdb_text.specs.Reports.{process_text, causes_text, history_text, mail_text, decisions_text};
ghost use Rattle.cdb_text.specs.Reports.{registers_from, registers_text};

use super::bytes::push_bytes;
use super::short::{MOST_BYTES, MOST_REPORT};
use super::short_report::{Line, MOST_LINE, write_cell, write_decision_line, write_view};
use cdb_base::{Cell, Event, MsgName, Payload, Proc, ProcView, StepId, Val};
use std::alloc::AllocError;

pub(super) fn push_process(text: &mut String, view: &ProcView) -> Result<(), AllocError>
    ensures { Pushes result text.old text.new (process_text view.now) }
{
    let mut bytes = [0; MOST_REPORT];
    let end = write_view(&mut bytes, 0, view);
    push_bytes(text, &bytes[..end])
}

/// The items, one after the other.
fn push_each<L: Line>(text: &mut String, items: &[L]) -> Result<(), AllocError>
    ensures { Pushes result text.old text.new (flat_map L.text items.now) }
{
    for item in items {
        let mut bytes = [0; MOST_LINE];
        let end = item.write(&mut bytes, 0);
        push_bytes(text, &bytes[..end])?;
    }
    Ok(())
}

/// Adds each name after a space at the end of a text, or ` none`. Only out of memory is an error.
pub fn push_causes(text: &mut String, causes: &[StepId]) -> Result<(), AllocError>
    ensures { Pushes result text.old text.new (causes_text causes.now) }
{
    if causes.is_empty() {
        return text.push_str(" none");
    }
    push_each(text, causes)
}

pub(super) fn push_history(text: &mut String, events: &[Event]) -> Result<(), AllocError>
    ensures { Pushes result text.old text.new (history_text events.now) }
{
    if events.is_empty() {
        return text.push_str("no steps\n");
    }
    push_each(text, events)
}

pub(super) fn push_mail(
    text: &mut String,
    copies: &[(Proc, MsgName, Payload)],
) -> Result<(), AllocError>
    ensures { Pushes result text.old text.new (mail_text copies.now) }
{
    if copies.is_empty() {
        return text.push_str("no mail\n");
    }
    push_each(text, copies)
}

pub(super) fn push_decisions(text: &mut String, decisions: &[(Proc, Val)]) -> Result<(), AllocError>
    ensures { Pushes result text.old text.new (decisions_text decisions.now) }
{
    if decisions.is_empty() {
        return text.push_str("decisions none\n");
    }
    text.push_str("decisions")?;
    push_each(text, decisions)?;
    text.push('\n')
}

/// The registers from this number on, the last of which is that of the decision.
fn push_registers_from(text: &mut String, number: usize, cells: &[Cell]) -> Result<(), AllocError>
    requires { number + length cells.now < 2 ^ 64 }
    ensures { Pushes result text.old text.new (registers_from number cells.now) }
{
    match cells {
        [] => Ok(()),
        [cell] => push_written!(text, write_decision_line(cell)),
        [cell, others @ ..] => {
            write!(text, "r{number}")?;
            push_written!(text, write_cell(cell))?;
            push_registers_from(text, number + 1, others)
        }
    }
}

pub(super) fn push_registers(text: &mut String, cells: &[Cell]) -> Result<(), AllocError>
    ensures { Pushes result text.old text.new (registers_text cells.now) }
{
    if cells.is_empty() {
        return text.push_str("no registers\n");
    }
    push_registers_from(text, 1, cells)
}
