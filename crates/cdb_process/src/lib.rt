//! The trait of a machine of one process: a function of its local state and of one input, with an
//! inverse. A run knows no more of a machine than this trait says.
//!
//! ```text
//! if machine.accepts(&input) {
//!     let back = machine.take(alloc, input)?;
//!     machine.put_back(back);
//! }
//! ```
#![tactic(auto)]

ghost use Rattle.std.specs.Prelude.{◌≡◌, ℕ, ◌↔◌, ◌≤◌, Option, Some, IsTrue, IsSome, IfOk, OnErr};
ghost use Rattle.cdb_base.specs.Limits.{MAX_PROCESSES};
ghost use Rattle.cdb_process.specs.declared.Input.{Input};
ghost use Rattle.cdb_process.specs.declared.Wish.{Wish};
ghost use Rattle.cdb_process.specs.Table.{Table};
ghost use Rattle.cdb_process.specs.Process.{IsLawful};

use cdb_base::{Cell, NoMemory, Payload, Proc, Reg, Val};
use std::alloc::Global;

/// What a machine takes in one step. A crash is no input: the run keeps it.
#[derive(Clone, Copy)]
pub enum Input {
    /// The oracle is asked, and names this leader.
    Query(Proc),
    /// The process broadcasts.
    Send,
    /// The process receives this payload of that sender.
    Recv(Proc, Payload),
    /// The process reads this cell in that register.
    Read(Reg, Cell),
    /// The process writes to that register.
    Write(Reg),
    /// The process goes on by itself.
    Local,
    /// The process adopts a decision that it received.
    Learn,
}

/// What a machine would do next of itself: the payload, register or cell is the one that is due.
#[derive(Clone, Copy, PartialEq, Eq)]
pub enum Wish {
    /// It would broadcast this payload.
    Send(Payload),
    /// It would read that register.
    Read(Reg),
    /// It would write this cell to that register.
    Write(Reg, Cell),
    /// It would go on by itself.
    Local,
}

/// The machine of one process. In the contracts `Self` is its local state.
///
/// Promise: A machine accepts an input exactly where its table has a next state, and goes to it; its wish is what it
/// accepts of sends, reads, writes and local steps; whether it accepts a query or a receive depends on the local state
/// alone; its inverse restores the state before an input; a decision stands exactly at the last place.
pub trait Process: Sized + Drop {
    /// What an input consumed or overwrote, for going back.
    type Back: Drop;

    // What the machine is, as a table over its local states.
    ghost table: { Table Self };

    // The local state from which an input led to this one, by what the input left for going back.
    ghost before: { Self → Self.Back → Self };

    /// The machine of process `me` of `n`, at most 9, before its first step. The quorum `q` is from 1
    /// to `n`. `NoMemory` if a growth is refused.
    fn first(alloc: Global, me: Proc, n: u8, q: u8, input: Val) -> Result<Self, NoMemory>
        requires among { (me ≤ n) × (n ≤ MAX_PROCESSES) }
        requires quorum { (1 ≤ q) × (q ≤ n) }
        ensures { IfOk result (λ local. local ≡ table.first me n q input) };

    /// What the process would do of itself: a send, a read, a write or a local step.
    fn wish(&self) -> Option<Wish>
        ensures { result ≡ table.wish self.now };

    /// Whether the machine accepts the input now.
    fn accepts(&self, i: &Input) -> bool
        ensures { IsTrue result ↔ IsSome (table.next self.now i.now) };

    /// Takes an input that is accepted, and returns what `put_back` needs to undo it. After `NoMemory`
    /// the local state is as it was.
    fn take(&mut self, alloc: Global, i: Input) -> Result<Self::Back, NoMemory>
        requires { IsSome (table.next self.old i) }
        ensures after { IfOk result (λ _. table.next self.old i ≡ Some self.new) }
        ensures back { IfOk result (λ b. before self.new b ≡ self.old) }
        ensures unchanged { OnErr result (self.new ≡ self.old) };

    /// Goes back by what a `take` returned. On the state that this `take` left, it gives the state
    /// before. It takes no memory.
    fn put_back(&mut self, b: Self::Back)
        ensures { self.new ≡ before self.old b };

    /// The value that the process decided: some exactly at the last place.
    fn decision(&self) -> Option<Val>
        ensures value { result ≡ table.decision self.now }
        ensures at_last_place { IsSome result ↔ (table.place self.now ≡ table.last_place) };

    /// The number of the place in the machine's table.
    fn place(&self) -> u8
        ensures { result ≡ table.place self.now };

    /// The round that the process is in.
    fn round(&self) -> u32
        ensures { result ≡ table.round self.now };

    ghost lawful: { IsLawful table.next table.accepts_query table.accepts_receive table.wish };
}

/// A machine whose local states can be compared.
pub trait SameState: Process {
    /// Whether both machines are in one local state.
    fn has_same_state(&self, other: &Self) -> bool
        ensures { IsTrue result ↔ (self.now ≡ other.now) };
}

/// Whether the machine accepts a query now, whoever is named.
pub fn accepts_query<P: Process>(local: &P) -> bool
    ensures by_table { result ≡ P.table.accepts_query local.now }
    ensures accepted { (l : ℕ) → IsTrue result ↔ IsSome (P.table.next local.now (Input.Query l)) }
{
    local.accepts(&Input::Query(Proc::new(1)))
}

/// Whether the machine accepts a receive now, whoever sent and whatever was sent.
pub fn accepts_receive<P: Process>(local: &P) -> bool
    ensures by_table { result ≡ P.table.accepts_receive local.now }
    ensures accepted { (s : ℕ) (x : Payload) →
        IsTrue result ↔ IsSome (P.table.next local.now (Input.Recv s x)) }
{
    let any = Payload::D { est: Val::new(0) };
    local.accepts(&Input::Recv(Proc::new(1), any))
}
