//! Names: of processes, steps, messages and copies.

ghost use Rattle.std.specs.Prelude.{◌≡◌, ℕ, ◌+◌, ◌≤◌, ◌↔◌, Some, IsSome, IfSome};
ghost use Rattle.cdb_base.specs.NameTexts.{loss_text, message_text, name_text, step_text};
ghost use Rattle.cdb_base.specs.Processes.{all_processes};

use crate::limits::MAX_PROCESSES;
use std::fmt;
use std::marker::Model;

/// A process, by its number from 1 to 9. A contract sees the number.
#[derive(Clone, Copy, Debug, PartialEq, Eq, PartialOrd, Ord)]
pub struct Proc(u8);

impl Model for Proc {
    ghost use Rattle.cdb_base.specs.Limits.{MAX_PROCESSES};
    ghost use Rattle.std.specs.Prelude.{ℕ, ◌≤◌};

    ghost Value = { ℕ };

    ghost view = { λ p. p.0 };

    ghost invariant = { λ p. (1 ≤ p.0) × (p.0 ≤ MAX_PROCESSES) };

    ghost inverse = { λ n. record { 0 = n } };
}

impl Proc {
    /// The process of that number, from 1 to 9.
    pub fn new(number: u8) -> Self
        requires from_one { 1 ≤ number }
        requires to_nine { number ≤ MAX_PROCESSES }
        ensures value { result ≡ number }
    {
        Proc(number)
    }

    /// The process of that number, where there can be one.
    pub fn from_number(number: u32) -> Option<Self>
        ensures valid { IsSome result ↔ ((1 ≤ number) × (number ≤ MAX_PROCESSES)) }
        ensures value { IfSome result (λ p. p ≡ number) }
    {
        if 1 <= number && number <= u32::from(MAX_PROCESSES) {
            Some(Proc(number as u8))
        } else {
            None
        }
    }

    /// Every process that a run can have, in order of number.
    #[tactic(auto, unfolding(crate::specs::Processes::all_processes))]
    pub fn all() -> [Proc; 9]
        ensures { result ≡ all_processes }
    {
        [
            Proc(1),
            Proc(2),
            Proc(3),
            Proc(4),
            Proc(5),
            Proc(6),
            Proc(7),
            Proc(8),
            Proc(9),
        ]
    }

    /// The number of the process, from 1 to 9.
    pub fn number(self) -> u8
        ensures value { result ≡ self }
        ensures from_one { 1 ≤ result }
        ensures to_nine { result ≤ MAX_PROCESSES }
    {
        self.0
    }

    /// The position of the process in a list of all processes, from 0.
    pub fn index(self) -> usize
        ensures value { result + 1 ≡ self }
        ensures below_nine { result ≤ 8 }
    {
        self.0 as usize - 1
    }
}

/// The first process, for lists that have something in every cell.
impl Default for Proc {
    ghost use Rattle.std.specs.Prelude.{◌≡◌};

    ghost is_default = { λ p. p ≡ 1 };

    fn default() -> Self {
        Self(1)
    }
}

/// The name `P.K` of a step: the `k`-th standing step of process `p`. The steps of a process count
/// from 1 to 9,999; a name with another number names no step.
#[derive(Clone, Copy, Debug, Default, PartialEq, Eq)]
pub struct StepName {
    pub p: Proc,
    pub k: u16,
}

impl fmt::Display for StepName {
    ghost output = { λ name. Some (step_text name.p name.k) };

    fn fmt<W: fmt::Write>(&self, f: &mut fmt::Formatter<W>) -> fmt::Result {
        let (p, k) = (self.p.number(), self.k);
        write!(f, "{p}.{k}")
    }
}

/// The name `S#M` of a message: the `m`-th send of process `s`, from 1.
#[derive(Clone, Copy, Debug, Default, PartialEq, Eq)]
pub struct MsgName {
    pub s: Proc,
    pub m: u16,
}

impl fmt::Display for MsgName {
    ghost output = { λ name. Some (message_text name.s name.m) };

    fn fmt<W: fmt::Write>(&self, f: &mut fmt::Formatter<W>) -> fmt::Result {
        let (s, m) = (self.s.number(), self.m);
        write!(f, "{s}#{m}")
    }
}

/// The copy of a message that is meant for one process. Each message has one copy for each process,
/// the sender too.
#[derive(Clone, Copy, Debug, Default, PartialEq, Eq)]
pub struct CopyName {
    pub msg: MsgName,
    pub to: Proc,
}

/// The loss of the copy, `lost S#M to P`.
impl fmt::Display for CopyName {
    ghost output = { λ copy. Some (loss_text copy) };

    fn fmt<W: fmt::Write>(&self, f: &mut fmt::Formatter<W>) -> fmt::Result {
        let (message, to) = (self.msg, self.to.number());
        write!(f, "lost {message} to {to}")
    }
}

/// The name of an event: a step by its process and number, the loss of a copy by that copy.
#[derive(Clone, Copy, Debug, PartialEq, Eq)]
pub enum StepId {
    Step(StepName),
    Lost(CopyName),
}

impl fmt::Display for StepId {
    ghost output = { λ name. Some (name_text name) };

    fn fmt<W: fmt::Write>(&self, f: &mut fmt::Formatter<W>) -> fmt::Result {
        match self {
            StepId::Step(name) => write!(f, "{name}"),
            StepId::Lost(copy) => write!(f, "{copy}"),
        }
    }
}

/// A name, for lists that have something in every cell.
impl Default for StepId {
    ghost use Rattle.std.specs.Prelude.{◌≡◌};
    ghost use Rattle.cdb_base.specs.declared.name.StepId.TheVariants.{Step};

    ghost is_default = { λ name. name ≡ Step (record { p = 1; k = 0 }) };

    fn default() -> Self {
        StepId::Step(StepName::default())
    }
}
