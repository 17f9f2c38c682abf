//! How values go through the Alpha machine.

ghost use Rattle.std.specs.Prelude.{◌≡◌};
ghost use Rattle.std.specs.Option.{option_and_then};
ghost use Rattle.cdb_base.specs.Positions.{nth};
ghost use Rattle.cdb_trail.specs.AlphaFlow.{alpha_flows, settled_from, has_settled, read_flow, write_flow, local_flow};

use crate::flow::{Flow, Spot};
use crate::flowing::Flowing;
use cdb_alpha::{Alpha, Place};
use cdb_base::{Kind, Proc, Reg, Val};
use cdb_deeds::register_of_value;
use cdb_process::Process;

/// A slot of a process of the Alpha machine.
#[derive(Clone, Copy, PartialEq, Eq)]
pub enum Slot {
    /// Its input.
    Input,
    /// The cell that it has read from the register of that number in this pass.
    Seen(usize),
    /// The value that it has settled in its round.
    Value,
    /// The value in the cell that it wrote last.
    Own,
    /// Its decision.
    Decision,
}

/// The slot from which the value comes that is settled.
fn settled_from(machine: &Alpha) -> Slot
    ensures { result ≡ settled_from machine.now }
{
    match register_of_value(machine) {
        Some(number) => Slot::Seen(number),
        None => Slot::Input,
    }
}

/// Whether the process has settled the value of its round.
fn has_settled(place: Place) -> bool
    ensures { result ≡ has_settled place }
{
    matches!(place, Place::A5 | Place::A6 | Place::A7 | Place::A8)
}

/// The value in the cell that the process has read from the register of that number.
fn value_seen(machine: &Alpha, number: usize) -> Option<Val>
    ensures { result ≡ option_and_then (λ cell. cell.val) (nth machine.now.seen number) }
{
    let index = number.checked_sub(1)?;
    machine.seen().get(index)?.val
}

/// The flow of a read.
fn read_flow(machine: &Alpha, p: Proc, register: Reg) -> Flow<Slot>
    ensures { result ≡ read_flow machine.now.place p machine.now register }
{
    let takes = Some(Spot::Register(register));
    match machine.stands_at() {
        Place::A0 => Flow::sets(takes, Spot::Slot(p, Slot::Decision)),
        Place::A3 | Place::A6 => {
            let number = machine.seen().len() + 1;
            Flow::sets(takes, Spot::Slot(p, Slot::Seen(number)))
        }
        _ => Flow::still(),
    }
}

/// The flow of a write.
fn write_flow(machine: &Alpha, p: Proc, register: Reg) -> Flow<Slot>
    ensures { result ≡ write_flow machine.now.place p register }
{
    let value = Spot::Slot(p, Slot::Value);
    let own = Spot::Slot(p, Slot::Own);
    let written = Spot::Register(register);
    match machine.stands_at() {
        Place::A2 => Flow::sets(Some(own), written),
        Place::A5 => Flow::moves_into_both(value, written, own),
        Place::A8 => Flow::sets(Some(value), written),
        _ => Flow::still(),
    }
}

/// The flow of a local step.
fn local_flow(machine: &Alpha, p: Proc) -> Flow<Slot>
    ensures { result ≡ local_flow machine.now.place p machine.now }
{
    match machine.stands_at() {
        Place::A4 if !machine.is_overtaken() => {
            let takes = Some(Spot::Slot(p, settled_from(machine)));
            Flow::sets(takes, Spot::Slot(p, Slot::Value))
        }
        _ => Flow::still(),
    }
}

impl Flowing for Alpha {
    type Slot = Slot;

    ghost flows = { alpha_flows };

    fn value(&self, slot: &Slot) -> Option<Val> {
        match *slot {
            Slot::Input => Some(self.input()),
            Slot::Seen(number) => value_seen(self, number),
            Slot::Value if has_settled(self.stands_at()) => Some(self.value()),
            Slot::Value => None,
            Slot::Own => self.own().val,
            Slot::Decision => self.decision(),
        }
    }

    fn flow(&self, p: Proc, kind: &Kind) -> Flow<Slot> {
        match *kind {
            Kind::Read(register) => read_flow(self, p, register),
            Kind::Write(register) => write_flow(self, p, register),
            Kind::Local => local_flow(self, p),
            _ => Flow::still(),
        }
    }

    fn is_one_slot(slot: &Slot, other: &Slot) -> bool {
        slot == other
    }
}
