//! Short reports, and lines of long ones. Each is written in bytes that are there, as any short text.

ghost use Rattle.std.specs.Prelude.{◌≡◌, ◌+◌, ◌*◌, ◌≤◌, List, ℕ, [], ◌∷◌, ◌++◌, codes, decimal, length};
ghost use Rattle.std.specs.List.{flat_map};
ghost use Rattle.cdb_text.specs.Pushes.{Writes};
ghost use Rattle.cdb_text.specs.Reports.{value_text, payload_text, copy_line, event_line, cause_text, process_text};
ghost use Rattle.cdb_text.specs.Reports.{machine_letter, life_word, decision_text, decisions_text};
ghost use Rattle.cdb_text.specs.Reports.{register_line, decision_line, registers_from, registers_text};
ghost use Rattle.cdb_text.specs.declared.text.short.TheConstants.{MOST_REPORT};
ghost use Rattle.cdb_text.specs.declared.text.short_report.TheConstants.{MOST_ITEMS, MOST_LINE, MOST_OF_A_CELL};
ghost use Rattle.cdb_text.specs.declared.text.short_report.TheConstants.{MOST_OF_A_REGISTER};

use super::short::{
    MOST_REPORT, write_byte, write_event, write_message, write_name, write_number, write_process,
    write_word,
};
use cdb_base::{Cell, Event, MsgName, Payload, Proc, ProcView, StepId, Val};

/// How many registers a report shows at most that is short, or decisions.
pub const MOST_ITEMS: usize = 10;

/// As many bytes as a line of a long report has at most, or another part of a report.
pub const MOST_LINE: usize = 60;

/// What a report shows one after the other: each in a line, or after a space.
pub trait Line {
    /// The line, or what stands in it.
    ghost text: { Self → List ℕ };

    /// Writes the text from this byte on, where there must be room for `MOST_LINE`, and returns where it ends.
    fn write(&self, bytes: &mut [u8], from: usize) -> usize
        requires { from + MOST_LINE ≤ length bytes.old }
        ensures written { Writes from result bytes.old bytes.new (text self.now) }
        ensures end { result ≤ from + MOST_LINE };
}

/// A line of `show history`.
impl Line for Event {
    ghost text = { event_line };

    #[inline(always)]
    fn write(&self, bytes: &mut [u8], from: usize) -> usize {
        let next = write_event(bytes, from, self);
        write_byte(bytes, next, b'\n')
    }
}

/// A line of `show mail`.
impl Line for (Proc, MsgName, Payload) {
    ghost text = { copy_line };

    #[inline(always)]
    fn write(&self, bytes: &mut [u8], from: usize) -> usize {
        let (receiver, name, payload) = self;
        let next = write_word(bytes, from, "to ");
        let next = write_process(bytes, next, *receiver);
        let next = write_byte(bytes, next, b' ');
        let next = write_message(bytes, next, *name);
        let next = write_byte(bytes, next, b' ');
        let next = write_payload(bytes, next, payload);
        write_byte(bytes, next, b'\n')
    }
}

/// A cause.
impl Line for StepId {
    ghost text = { cause_text };

    #[inline(always)]
    fn write(&self, bytes: &mut [u8], from: usize) -> usize {
        let next = write_byte(bytes, from, b' ');
        write_name(bytes, next, *self)
    }
}

/// A decision.
impl Line for (Proc, Val) {
    ghost text = { decision_text };

    #[inline(always)]
    fn write(&self, bytes: &mut [u8], from: usize) -> usize {
        let (p, value) = self;
        let next = write_byte(bytes, from, b' ');
        let next = write_process(bytes, next, *p);
        let next = write_byte(bytes, next, b'=');
        write_number(bytes, next, value.number())
    }
}

/// The items, one after the other.
pub(super) fn write_each<L: Line>(bytes: &mut [u8], from: usize, items: &[L]) -> usize
    requires { from + MOST_LINE * length items.now ≤ length bytes.old }
    ensures written { Writes from result bytes.old bytes.new (flat_map L.text items.now) }
    ensures end { result ≤ from + MOST_LINE * length items.now }
{
    match items {
        [item, others @ ..] => {
            let next = item.write(bytes, from);
            write_each(bytes, next, others)
        }
        [] => from,
    }
}

#[inline(always)]
pub(super) fn write_value(bytes: &mut [u8], from: usize, value: Option<Val>) -> usize
    requires { from + 10 ≤ length bytes.old }
    ensures written { Writes from result bytes.old bytes.new (value_text value) }
    ensures end { result ≤ from + 10 }
{
    match value {
        Some(value) => write_number(bytes, from, value.number()),
        None => write_word(bytes, from, "none"),
    }
}

#[inline(always)]
pub(super) fn write_payload(bytes: &mut [u8], from: usize, payload: &Payload) -> usize
    requires { from + 26 ≤ length bytes.old }
    ensures written { Writes from result bytes.old bytes.new (payload_text payload.now) }
    ensures end { result ≤ from + 26 }
{
    match *payload {
        Payload::P1 { round, est, lead } => {
            let next = write_word(bytes, from, "p1 ");
            let next = write_number(bytes, next, round);
            let next = write_byte(bytes, next, b' ');
            let next = write_number(bytes, next, est.number());
            let next = write_byte(bytes, next, b' ');
            write_process(bytes, next, lead)
        }
        Payload::P2 { round, aux } => {
            let next = write_word(bytes, from, "p2 ");
            let next = write_number(bytes, next, round);
            let next = write_byte(bytes, next, b' ');
            write_value(bytes, next, aux)
        }
        Payload::D { est } => {
            let next = write_word(bytes, from, "d ");
            write_number(bytes, next, est.number())
        }
    }
}

/// The letter of the machine, after a space.
fn machine_letter(alpha: bool) -> &'static str
    ensures { result.now ≡ codes " " ++ machine_letter alpha }
{
    if alpha { " A" } else { " L" }
}

/// Whether the process is alive, in a word after a space.
fn life_word(alive: bool) -> &'static str
    ensures { result.now ≡ codes " " ++ life_word alive }
{
    if alive { " alive" } else { " crashed" }
}

/// The process, its place in the algorithm, and whether it is alive.
fn write_place(bytes: &mut [u8], from: usize, view: &ProcView) -> usize
    requires { from + 53 ≤ length bytes.old }
    ensures written { Writes from result bytes.old bytes.new
        (codes "process " ++ decimal (view.now).p
        ++ codes " " ++ machine_letter (view.now).alpha ++ decimal (view.now).place
        ++ codes " round " ++ decimal (view.now).round
        ++ codes " " ++ life_word (view.now).alive) }
    ensures end { result ≤ from + 53 }
{
    let next = write_word(bytes, from, "process ");
    let next = write_process(bytes, next, view.p);
    let next = write_word(bytes, next, machine_letter(view.alpha));
    let next = write_number(bytes, next, u32::from(view.place));
    let next = write_word(bytes, next, " round ");
    let next = write_number(bytes, next, view.round);
    write_word(bytes, next, life_word(view.alive))
}

/// Writes the text of a process from this byte on, where there must be room for `MOST_REPORT`, and returns where it
/// ends.
pub fn write_view(bytes: &mut [u8], from: usize, view: &ProcView) -> usize
    requires { from + MOST_REPORT ≤ length bytes.old }
    ensures { Writes from result bytes.old bytes.new (process_text view.now) }
{
    let next = write_place(bytes, from, view);
    let next = write_word(bytes, next, " steps ");
    let next = write_number(bytes, next, view.steps);
    let next = write_word(bytes, next, " queries ");
    let next = write_number(bytes, next, view.queries);
    let next = write_word(bytes, next, " decision ");
    let next = write_value(bytes, next, view.decision);
    write_byte(bytes, next, b'\n')
}

/// Writes the text of decisions, at most `MOST_ITEMS`, from this byte on, where there must be room for `MOST_REPORT`,
/// and returns where it ends.
pub fn write_decisions(bytes: &mut [u8], from: usize, decisions: &[(Proc, Val)]) -> usize
    requires few { length decisions.now ≤ MOST_ITEMS }
    requires room { from + MOST_REPORT ≤ length bytes.old }
    ensures { Writes from result bytes.old bytes.new (decisions_text decisions.now) }
{
    if decisions.is_empty() {
        return write_word(bytes, from, "decisions none\n");
    }
    let next = write_word(bytes, from, "decisions");
    let next = write_each(bytes, next, decisions);
    write_byte(bytes, next, b'\n')
}

/// As many bytes as the line of a register has at most.
const MOST_OF_A_REGISTER: usize = 58;

/// As many bytes as what a cell holds has at most, to the end of a line.
const MOST_OF_A_CELL: usize = 47;

/// What a cell holds, to the end of a line.
#[inline(always)]
pub(super) fn write_cell(bytes: &mut [u8], from: usize, cell: &Cell) -> usize
    requires { from + MOST_OF_A_CELL ≤ length bytes.old }
    ensures written { Writes from result bytes.old bytes.new
        (codes " lre " ++ decimal (cell.now).lre ++ codes " lrww " ++ decimal (cell.now).lrww
        ++ codes " val " ++ value_text (cell.now).val ++ codes "\n") }
    ensures end { result ≤ from + MOST_OF_A_CELL }
{
    let next = write_word(bytes, from, " lre ");
    let next = write_number(bytes, next, cell.lre);
    let next = write_word(bytes, next, " lrww ");
    let next = write_number(bytes, next, cell.lrww);
    let next = write_word(bytes, next, " val ");
    let next = write_value(bytes, next, cell.val);
    write_byte(bytes, next, b'\n')
}

/// The register with this number and what it holds.
#[inline(always)]
fn write_register_line(bytes: &mut [u8], from: usize, number: u32, cell: &Cell) -> usize
    requires { from + MOST_OF_A_REGISTER ≤ length bytes.old }
    ensures written { Writes from result bytes.old bytes.new (register_line number cell.now) }
    ensures end { result ≤ from + MOST_OF_A_REGISTER }
{
    let next = write_byte(bytes, from, b'r');
    let next = write_number(bytes, next, number);
    write_cell(bytes, next, cell)
}

/// The cell of the decision.
pub(super) fn write_decision_line(bytes: &mut [u8], from: usize, cell: &Cell) -> usize
    requires { from + MOST_OF_A_REGISTER ≤ length bytes.old }
    ensures written { Writes from result bytes.old bytes.new (decision_line cell.now) }
    ensures end { result ≤ from + MOST_OF_A_REGISTER }
{
    let next = write_word(bytes, from, "dec ");
    let next = write_value(bytes, next, cell.val);
    write_byte(bytes, next, b'\n')
}

/// The registers from this number on, the last of which is that of the decision.
fn write_registers_from(bytes: &mut [u8], from: usize, number: u32, cells: &[Cell]) -> usize
    requires few { number + length cells.now ≤ MOST_ITEMS + 1 }
    requires room { from + MOST_OF_A_REGISTER * length cells.now ≤ length bytes.old }
    ensures written { Writes from result bytes.old bytes.new (registers_from number cells.now) }
    ensures end { result ≤ from + MOST_OF_A_REGISTER * length cells.now }
{
    match cells {
        [] => from,
        [cell] => write_decision_line(bytes, from, cell),
        [cell, others @ ..] => {
            let next = write_register_line(bytes, from, number, cell);
            write_registers_from(bytes, next, number + 1, others)
        }
    }
}

/// Writes the text of registers, at most `MOST_ITEMS`, from this byte on, where there must be room for `MOST_REPORT`,
/// and returns where it ends.
pub fn write_registers(bytes: &mut [u8], from: usize, cells: &[Cell]) -> usize
    requires few { length cells.now ≤ MOST_ITEMS }
    requires room { from + MOST_REPORT ≤ length bytes.old }
    ensures { Writes from result bytes.old bytes.new (registers_text cells.now) }
{
    if cells.is_empty() {
        return write_word(bytes, from, "no registers\n");
    }
    write_registers_from(bytes, from, 1, cells)
}
