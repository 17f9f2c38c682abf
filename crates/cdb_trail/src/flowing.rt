//! A machine of which it is known how its steps move values.

ghost use Rattle.std.specs.Prelude.{◌≡◌, ◌↔◌, IsTrue};
ghost use Rattle.cdb_trail.specs.Flow.{Flows};

use crate::flow::Flow;
use cdb_base::{Kind, Proc, Val};
use cdb_process::Process;

/// A machine of which it is known how its steps move values.
pub trait Flowing: Process {
    /// A slot in which a process holds a value.
    type Slot: Copy + Drop;

    // Where its values lie, and how its steps move them.
    ghost flows: { Flows Self Self.Slot };

    /// The value in a slot, where there is one.
    fn value(&self, slot: &Self::Slot) -> Option<Val>
        ensures { result ≡ flows.value self.now slot.now };

    /// The flow of a step of that kind, which the machine takes as process `p`.
    fn flow(&self, p: Proc, kind: &Kind) -> Flow<Self::Slot>
        ensures { result ≡ flows.flow p self.now kind.now };

    /// Whether the two are one slot.
    fn is_one_slot(slot: &Self::Slot, other: &Self::Slot) -> bool
        ensures { IsTrue result ↔ (slot.now ≡ other.now) };
}
