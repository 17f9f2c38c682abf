//! The machine of one process of Alpha over atomic registers.

ghost use Rattle.std.specs.Prelude.{◌≡◌, ◌+◌, ◌<◌, ◌≤◌, ◌↔◌, Option, Some, None, IsTrue};
ghost use Rattle.std.specs.Prelude.{IsSome, IfOk, OnErr, is_some, length, false};
ghost use Rattle.cdb_process.specs.declared.Input.{Input};

use crate::back::{Back, Before, PassBefore};
use crate::place::Place;
use crate::seen::{are_same, find_value, shows_later_round};
use cdb_base::limits::MAX_ROUND;
use cdb_base::{Cell, NoMemory, Proc, Reg, Val};
use cdb_process::{Input, Process, SameState, Wish};
use std::alloc::Global;
use std::marker::Model;
use std::mem;

/// The Alpha machine of one process. A contract sees its local state.
#[derive(Drop)]
pub struct Alpha {
    me: Proc,
    processes: u8,
    input: Val,
    place: Place,
    round: u32,
    own: Cell,
    seen: Vec<Cell>,
    value: Val,
    decision: Option<Val>,
}

impl Model for Alpha {
    ghost use Rattle.cdb_base.specs.Limits.{MAX_PROCESSES};
    ghost use Rattle.std.specs.Prelude.{◌≡◌, ◌≤◌, is_some};
    ghost use Rattle.cdb_alpha.specs.LocalState.{LocalState};
    ghost use Rattle.cdb_alpha.specs.Place.{is_last};

    ghost Value = { LocalState };

    ghost view = { λ x. record {
      me = x.me;
      processes = x.processes;
      input = x.input;
      place = x.place;
      round = x.round;
      own = x.own;
      seen = x.seen.items;
      value = x.value;
      decision = x.decision;
    } };

    ghost invariant = { λ x. (is_some x.decision ≡ is_last x.place)
        × (x.processes ≤ MAX_PROCESSES) };
}

impl Alpha {
    ghost use Rattle.cdb_alpha.specs.Place.{is_last};
    ghost use Rattle.cdb_alpha.specs.Table.{see_decision, entered, with_value, decision_cell, begin_pass};
    ghost use Rattle.cdb_alpha.specs.Table.{next_register, see, next_round, judge, next_state};
    ghost use Rattle.cdb_alpha.specs.Seen.{is_overtaken};
    ghost use Rattle.cdb_alpha.specs.Back.{state_before};

    /// Where the process stands in its round.
    pub fn stands_at(&self) -> Place
        ensures { result ≡ self.now.place }
    {
        self.place
    }

    /// The input of the process.
    pub fn input(&self) -> Val
        ensures { result ≡ self.now.input }
    {
        self.input
    }

    /// The cell that the process last wrote to its own register.
    pub fn own(&self) -> &Cell
        ensures { result.now ≡ self.now.own }
    {
        &self.own
    }

    /// The cells that the process has read in this pass, in order.
    pub fn seen(&self) -> &[Cell]
        ensures { result.now ≡ self.now.seen }
    {
        &self.seen
    }

    /// The value that the process chose last, its input before it has chosen one.
    pub fn value(&self) -> Val
        ensures { result ≡ self.now.value }
    {
        self.value
    }

    /// The cell with which the process enters its round: what it last wrote, with the new round.
    fn entered(&self) -> Cell
        ensures { result ≡ entered self.now }
    {
        Cell {
            lre: self.round,
            lrww: self.own.lrww,
            val: self.own.val,
        }
    }

    /// The cell with the value that the process chose.
    fn with_value(&self) -> Cell
        ensures { result ≡ with_value self.now }
    {
        Cell {
            lre: self.round,
            lrww: self.round,
            val: Some(self.value),
        }
    }

    /// The cell that the process writes to the register of the decision: its value.
    fn decision_cell(&self) -> Cell
        ensures { result ≡ decision_cell self.now }
    {
        Cell {
            lre: 0,
            lrww: 0,
            val: Some(self.value),
        }
    }

    /// The register that is read next in a pass.
    fn next_register(&self) -> Option<Reg>
        ensures { result ≡ next_register self.now }
    {
        let seen = self.seen.len();
        if seen < usize::from(self.processes) {
            Some(Reg::R(Proc::new(seen as u8 + 1)))
        } else {
            None
        }
    }

    /// Whether the process has a next round.
    fn has_next_round(&self) -> bool
        ensures { result ≡ is_some (next_round self.now) }
    {
        u64::from(self.round) + u64::from(self.processes) <= u64::from(MAX_ROUND)
    }

    /// Whether another process entered a later round.
    pub fn is_overtaken(&self) -> bool
        ensures { result ≡ is_overtaken self.now.round self.now.seen }
    {
        shows_later_round(&self.seen, self.round)
    }

    /// Goes on to the next round.
    fn go_to_next_round(&mut self) -> Back
        requires not_done { is_last self.old.place ≡ false }
        requires room { IsSome (next_round self.old) }
        ensures after { next_round self.old ≡ Some self.new }
        ensures back { state_before self.new result ≡ self.old }
    {
        let before = Before::Round(self.place, self.round);
        self.place = Place::A0;
        self.round += u32::from(self.processes);
        Back { before }
    }

    /// Goes on after a write of that cell to the own register: a pass begins.
    fn begin_pass(&mut self, alloc: Global, cell: Cell, reading: Place) -> Result<Back, NoMemory>
        requires not_done { is_last self.old.place ≡ false }
        requires not_done_then { is_last reading ≡ false }
        ensures after { IfOk result (λ _. self.new ≡ begin_pass reading self.old cell) }
        ensures back { IfOk result (λ b. state_before self.new b ≡ self.old) }
        ensures unchanged { OnErr result (self.new ≡ self.old) }
    {
        let mut before = Box::new(
            alloc,
            PassBefore {
                seen: Vec::new(alloc),
                own: self.own,
            },
        )?;
        mem::swap(&mut before.seen, &mut self.seen);
        let before = Before::Pass(self.place, before);
        self.own = cell;
        self.place = reading;
        Ok(Back { before })
    }

    /// Takes what the register of the decision holds.
    fn see_decision(&mut self, value: Option<Val>) -> Back
        requires { self.old.place ≡ Place.A0 }
        ensures after { self.new ≡ see_decision self.old value }
        ensures back { state_before self.new result ≡ self.old }
    {
        let before = Before::Place(self.place);
        match value {
            Some(value) => {
                self.decision = Some(value);
                self.place = Place::A9;
            }
            None => self.place = Place::A1,
        }
        Back { before }
    }

    /// Adds a cell to those that are seen in this pass, after which the process is at `over`.
    fn see(&mut self, cell: Cell, over: Place) -> Result<Back, NoMemory>
        requires not_done { is_last self.old.place ≡ false }
        requires not_done_then { is_last over ≡ false }
        requires room { length self.old.seen < self.old.processes }
        ensures after { IfOk result (λ _. self.new ≡ see self.old.place over self.old cell) }
        ensures back { IfOk result (λ b. state_before self.new b ≡ self.old) }
        ensures unchanged { OnErr result (self.new ≡ self.old) }
    {
        let before = Before::Seen(self.place);
        if self.seen.is_empty() {
            self.seen.reserve(usize::from(self.processes))?;
        }
        self.seen.push(cell)?;
        if self.seen.len() == usize::from(self.processes) {
            self.place = over;
        }
        Ok(Back { before })
    }

    /// Takes the answer to a query.
    fn query(&mut self, leader: Proc) -> Back
        requires { IsSome (next_state self.old (Input.Query leader)) }
        ensures after { next_state self.old (Input.Query leader) ≡ Some self.new }
        ensures back { state_before self.new result ≡ self.old }
    {
        let before = Before::Place(self.place);
        self.place = if leader == self.me {
            Place::A2
        } else {
            Place::A0
        };
        Back { before }
    }

    /// Takes the cell that a register holds.
    fn read(&mut self, register: Reg, cell: Cell) -> Result<Back, NoMemory>
        requires { IsSome (next_state self.old (Input.Read register cell)) }
        ensures after { IfOk result
            (λ _. next_state self.old (Input.Read register cell) ≡ Some self.new) }
        ensures back { IfOk result (λ b. state_before self.new b ≡ self.old) }
        ensures unchanged { OnErr result (self.new ≡ self.old) }
    {
        match self.place {
            Place::A0 => Ok(self.see_decision(cell.val)),
            Place::A3 => self.see(cell, Place::A4),
            Place::A6 => self.see(cell, Place::A7),
            _ => unreachable!(),
        }
    }

    /// Goes on after a write.
    fn write(&mut self, alloc: Global, register: Reg) -> Result<Back, NoMemory>
        requires { IsSome (next_state self.old (Input.Write register)) }
        ensures after { IfOk result
            (λ _. next_state self.old (Input.Write register) ≡ Some self.new) }
        ensures back { IfOk result (λ b. state_before self.new b ≡ self.old) }
        ensures unchanged { OnErr result (self.new ≡ self.old) }
    {
        match self.place {
            Place::A2 => {
                let cell = self.entered();
                self.begin_pass(alloc, cell, Place::A3)
            }
            Place::A5 => {
                let cell = self.with_value();
                self.begin_pass(alloc, cell, Place::A6)
            }
            Place::A8 => Ok(self.go_to_next_round()),
            _ => unreachable!(),
        }
    }

    /// Ends a pass.
    fn judge(&mut self) -> Back
        requires { IsSome (next_state self.old Input.Local) }
        ensures after { next_state self.old Input.Local ≡ Some self.new }
        ensures back { state_before self.new result ≡ self.old }
    {
        if self.is_overtaken() {
            return self.go_to_next_round();
        }
        if self.place == Place::A4 {
            let before = Before::Value(self.place, self.value);
            self.value = find_value(&self.seen).unwrap_or(self.input);
            self.place = Place::A5;
            Back { before }
        } else {
            let before = Before::Place(self.place);
            self.place = Place::A8;
            Back { before }
        }
    }
}

impl Process for Alpha {
    ghost use Rattle.cdb_alpha.specs.Machine.{alpha_table};
    ghost use Rattle.cdb_alpha.specs.Back.{state_before};
    ghost use Rattle.cdb_alpha.specs.TableLaws as laws;

    type Back = Back;

    ghost table = { alpha_table };

    ghost before = { state_before };

    ghost lawful = { laws.lawful };

    fn first(alloc: Global, me: Proc, n: u8, _q: u8, input: Val) -> Result<Self, NoMemory> {
        Ok(Alpha {
            me,
            processes: n,
            input,
            place: Place::A0,
            round: u32::from(me.number()),
            own: Cell {
                lre: 0,
                lrww: 0,
                val: None,
            },
            seen: Vec::new(alloc),
            value: input,
            decision: None,
        })
    }

    fn wish(&self) -> Option<Wish> {
        match self.place {
            Place::A0 => Some(Wish::Read(Reg::Dec)),
            Place::A2 => Some(Wish::Write(Reg::R(self.me), self.entered())),
            Place::A3 | Place::A6 => Some(Wish::Read(self.next_register()?)),
            Place::A4 | Place::A7 if !self.is_overtaken() => Some(Wish::Local),
            Place::A4 | Place::A7 if self.has_next_round() => Some(Wish::Local),
            Place::A5 => Some(Wish::Write(Reg::R(self.me), self.with_value())),
            Place::A8 if self.has_next_round() => Some(Wish::Write(Reg::Dec, self.decision_cell())),
            _ => None,
        }
    }

    // Most callers ask about an input that they name, of which little is left to ask then.
    #[inline(always)]
    fn accepts(&self, i: &Input) -> bool {
        match i {
            Input::Query(_) => self.place == Place::A1,
            Input::Read(register, _) => match self.wish() {
                Some(Wish::Read(due)) => due == *register,
                _ => false,
            },
            Input::Write(register) => match self.wish() {
                Some(Wish::Write(due, _)) => due == *register,
                _ => false,
            },
            Input::Local => matches!(self.wish(), Some(Wish::Local)),
            Input::Send | Input::Recv(_, _) | Input::Learn => false,
        }
    }

    #[inline(always)]
    fn take(&mut self, alloc: Global, i: Input) -> Result<Back, NoMemory> {
        match i {
            Input::Query(leader) => Ok(self.query(leader)),
            Input::Read(register, cell) => self.read(register, cell),
            Input::Write(register) => self.write(alloc, register),
            Input::Local => Ok(self.judge()),
            Input::Send | Input::Recv(_, _) | Input::Learn => unreachable!(),
        }
    }

    fn put_back(&mut self, b: Back) {
        let Back { before } = b;
        self.decision = None;
        match before {
            Before::Place(place) => self.place = place,
            Before::Seen(place) => {
                self.place = place;
                let _ = self.seen.pop();
            }
            Before::Round(place, round) => {
                self.place = place;
                self.round = round;
            }
            Before::Value(place, value) => {
                self.place = place;
                self.value = value;
            }
            Before::Pass(place, pass) => {
                let PassBefore { seen, own } = Box::into_inner(pass);
                self.place = place;
                self.seen = seen;
                self.own = own;
            }
        }
    }

    fn decision(&self) -> Option<Val> {
        self.decision
    }

    fn place(&self) -> u8 {
        self.place.number()
    }

    fn round(&self) -> u32 {
        self.round
    }
}

impl SameState for Alpha {
    fn has_same_state(&self, other: &Self) -> bool {
        self.me == other.me
            && self.processes == other.processes
            && self.input == other.input
            && self.place == other.place
            && self.round == other.round
            && self.own == other.own
            && are_same(&self.seen, &other.seen)
            && self.value == other.value
            && self.decision == other.decision
    }
}
