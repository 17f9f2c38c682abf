//! Breakpoints.
ghost use Rattle.std.specs.Prelude.{◌≡◌, ◌↔◌, ◌≤◌, IsTrue, ◌==◌, ◌&&◌, [], IfOk};
ghost use Rattle.std.specs.Prelude.{OnOk, OnErr, length, nat_eq, not, is_some};
ghost use Rattle.std.specs.Map.{lookup};
ghost use Rattle.cdb_base.specs.Event.{is_step_of};
ghost use Rattle.cdb_base.specs.Limits.{MAX_ENTRIES};
ghost use Rattle.cdb_control.specs.Stops.{fires, first_fired, is_receive, is_write_of, names_none_of};
ghost use Rattle.cdb_control.specs.Kept.{with_stop, without_stop};
ghost use Rattle.cdb_rules.specs.Step.{is_among};

use crate::Stop;
use cdb_base::{Event, Kind, NoMemory, Reg, Val};
use indexmap::IndexMap;
use std::alloc::Global;
use std::marker::Model;

/// What breakpoints look at in a step that was taken.
#[derive(Clone, Copy)]
pub struct TakenStep {
    pub event: Event,
    pub decides: Option<Val>,
    pub round_before: u32,
    pub round_after: u32,
}

impl TakenStep {
    /// Whether the step fires a breakpoint.
    pub fn fires(&self, stop: &Stop) -> bool
        ensures { result ≡ fires self.now stop.now }
    {
        match stop {
            Stop::Decide(p) => self.is_of(*p) && self.decides.is_some(),
            Stop::Round(p, round) => self.is_of(*p) && self.enters(*round),
            Stop::Recv(p) => self.is_of(*p) && self.receives(),
            Stop::Write(register) => self.writes(register),
        }
    }

    fn is_of(&self, p: u32) -> bool
        ensures { result ≡ is_step_of p self.now.event }
    {
        match &self.event {
            Event::Step { p: q, .. } => u32::from(q.number()) == p,
            Event::Lost(_) => false,
        }
    }

    fn enters(&self, round: u32) -> bool
        ensures { result
            ≡ (self.now.round_after == round && not (self.now.round_before == round)) }
    {
        self.round_after == round && self.round_before != round
    }

    fn receives(&self) -> bool
        ensures { result ≡ is_receive self.now.event }
    {
        match &self.event {
            Event::Step { kind, .. } => matches!(kind, Kind::Recv(_, _)),
            Event::Lost(_) => false,
        }
    }

    fn writes(&self, register: &Reg) -> bool
        ensures { result ≡ is_write_of register.now self.now.event }
    {
        match &self.event {
            Event::Step {
                kind: Kind::Write(written),
                ..
            } => register == written,
            _ => false,
        }
    }
}

/// The standing breakpoints, and the number of the next one.
#[derive(Drop)]
pub struct Breakpoints {
    standing: IndexMap<u32, Stop>,
    next: u32,
}

impl Model for Breakpoints {
    ghost use Rattle.cdb_control.specs.Stops.{Numbered};
    ghost use Rattle.cdb_control.specs.Stops.{AreBelow};

    ghost Value = { Numbered };

    ghost view = { λ s. record { stops = s.standing.entries; next = s.next } };

    ghost invariant = { λ s. AreBelow s.next s.standing.entries };
}

impl Breakpoints {
    /// None; the first one that is set gets number 1.
    pub fn new(alloc: Global) -> Self
        ensures { result ≡ record { stops = []; next = 1 } }
    {
        Breakpoints {
            standing: IndexMap::new(alloc),
            next: 1,
        }
    }

    /// How many breakpoints stand.
    pub fn len(&self) -> usize
        ensures { result ≡ length self.now.stops }
    {
        self.standing.len()
    }

    /// Whether no breakpoint stands.
    pub fn is_empty(&self) -> bool
        ensures { IsTrue result ↔ (self.now.stops ≡ []) }
    {
        self.standing.is_empty()
    }

    /// Sets a breakpoint, and gives its number. After `NoMemory` nothing has changed.
    pub fn set(&mut self, stop: Stop) -> Result<u32, NoMemory>
        requires { self.old.next ≤ MAX_ENTRIES }
        ensures number { IfOk result (λ number. number ≡ self.old.next) }
        ensures ok { OnOk result (self.new ≡ with_stop self.old stop) }
        ensures err { OnErr result (self.new ≡ self.old) }
    {
        let _register: Option<Reg> = None;
        let number = self.next;
        self.standing.insert(number, stop)?;
        self.next += 1;
        Ok(number)
    }

    /// Whether a breakpoint of that number stands.
    pub fn has(&self, number: u32) -> bool
        ensures { result ≡ is_some (lookup (nat_eq number) self.now.stops) }
    {
        self.standing.contains_key(&number)
    }

    /// Takes the breakpoint of that number away, if it stands.
    pub fn remove(&mut self, number: u32)
        ensures { self.new ≡ without_stop self.old number }
    {
        let _ = self.standing.shift_remove(&number);
    }

    /// The number of the first breakpoint that a step fires.
    #[inline(never)]
    pub fn first_fired(&self, taken: &TakenStep) -> Option<u32>
        ensures { result ≡ first_fired taken.now self.now.stops }
    {
        for (number, stop) in self.standing.iter() {
            if taken.fires(stop) {
                return Some(*number);
            }
        }
        None
    }
}

/// Whether a stop names a process that is not there, or its register.
pub fn names_none_of(n: u8, stop: &Stop) -> bool
    ensures { result ≡ names_none_of n stop.now }
{
    match stop {
        Stop::Decide(p) => !is_among(n, *p),
        Stop::Round(p, _) => !is_among(n, *p),
        Stop::Recv(p) => !is_among(n, *p),
        Stop::Write(Reg::R(p)) => !is_among(n, u32::from(p.number())),
        Stop::Write(Reg::Dec) => false,
    }
}

/// Whether the number is that of one of `n` processes.
fn is_among(n: u8, p: u32) -> bool
    ensures { result ≡ is_among n p }
{
    1 <= p && p <= u32::from(n)
}
