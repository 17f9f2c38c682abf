//! The registers of a run.

ghost use Rattle.std.specs.Prelude.{◌≡◌, ◌≤◌, ◌++◌, Some, IfOk, is_some, map, option_to_list};
ghost use Rattle.std.specs.Option.{option_copied};
ghost use Rattle.cdb_base.specs.Limits.{MAX_PROCESSES};
ghost use Rattle.cdb_register.specs.Registers.{fresh_registers, register_of, cell_of, writes_of};
ghost use Rattle.cdb_register.specs.Registers.{HasRegister, MayBeWritten, HasWrite};
ghost use Rattle.cdb_register.specs.Registers.{after_write, after_restore, IsBeforeWrite};

use crate::register_state::RegisterState;
use cdb_base::{Cell, NoMemory, Reg, Val};
use std::alloc::Global;
use std::marker::Model;

/// The registers of a run. A contract sees what those of the processes hold, in order of number, and
/// what that of the decision holds, each with the number of its writes that stand.
///
/// Promise: A write and its inverse change a cell and its count as their names say.
#[derive(Drop)]
pub struct Registers {
    of_processes: Vec<RegisterState>,
    of_decision: Option<RegisterState>,
}

impl Model for Registers {
    ghost use Rattle.cdb_register.specs.Registers.{RegisterStates};

    ghost Value = { RegisterStates };

    ghost view = { λ x. record {
      of_processes = x.of_processes.items;
      of_decision = x.of_decision;
    } };
}

impl Registers {
    /// The registers of `n` processes, at most 9, which nobody has written; for 0 there is none, not
    /// that of the decision either. `NoMemory` if an allocation fails.
    pub fn new(alloc: Global, n: u8) -> Result<Self, NoMemory>
        requires { n ≤ MAX_PROCESSES }
        ensures { IfOk result (λ registers. registers ≡ fresh_registers n) }
    {
        let mut of_processes = Vec::new(alloc);
        for _ in 0..n {
            of_processes.push(RegisterState::fresh())?;
        }
        let of_decision = if n > 0 {
            Some(RegisterState::fresh())
        } else {
            None
        };
        Ok(Registers {
            of_processes,
            of_decision,
        })
    }

    /// Whether there is such a register.
    pub fn has(&self, register: Reg) -> bool
        ensures { result ≡ is_some (register_of self.now register) }
    {
        self.state(register).is_some()
    }

    /// What a register that is there holds.
    pub fn read(&self, register: Reg) -> Cell
        requires { HasRegister self.now register }
        ensures { cell_of self.now register ≡ Some result }
    {
        match self.state(register) {
            Some(state) => state.cell,
            None => unreachable!(),
        }
    }

    /// How many writes of a register that is there stand.
    pub fn writes(&self, register: Reg) -> u32
        requires { HasRegister self.now register }
        ensures { writes_of self.now register ≡ Some result }
    {
        match self.state(register) {
            Some(state) => state.writes,
            None => unreachable!(),
        }
    }

    /// What the registers of the processes hold, in order of number, and then that of the decision. `NoMemory` if an
    /// allocation fails.
    pub fn cells(&self, alloc: Global) -> Result<Vec<Cell>, NoMemory>
        ensures { IfOk result (λ cells. cells.items
            ≡ map (λ state. state.cell) (self.now.of_processes ++ option_to_list self.now.of_decision)) }
    {
        // Names the type inside a cell, which the check finds in no other part of the function.
        let _value: Option<Val> = None;
        let mut cells = Vec::new(alloc);
        for state in &self.of_processes {
            cells.push(state.cell)?;
        }
        if let Some(state) = self.of_decision {
            cells.push(state.cell)?;
        }
        Ok(cells)
    }

    /// Writes a cell to a register that is there and of which fewer than 999,999 writes stand. Returns
    /// the cell that was overwritten.
    pub fn write(&mut self, register: Reg, cell: Cell) -> Cell
        requires here { HasRegister self.old register }
        requires room { MayBeWritten self.old register }
        ensures overwritten { cell_of self.old register ≡ Some result }
        ensures after { self.new ≡ after_write self.old register cell }
    {
        match register {
            Reg::R(p) => {
                let state = &mut self.of_processes[p.index()];
                state.write(cell)
            }
            Reg::Dec => match &mut self.of_decision {
                Some(state) => state.write(cell),
                None => unreachable!(),
            },
        }
    }

    /// Puts a cell back in a register that is there and of which a write stands. After a write, with
    /// the cell that this write returned, it leads back to the registers before the write.
    pub fn restore(&mut self, register: Reg, cell: Cell)
        requires here { HasRegister self.old register }
        requires standing { HasWrite self.old register }
        ensures after { self.new ≡ after_restore self.old register cell }
        ensures undoes { IsBeforeWrite self.old register cell self.new }
    {
        match register {
            Reg::R(p) => {
                let state = &mut self.of_processes[p.index()];
                state.restore(cell);
            }
            Reg::Dec => match &mut self.of_decision {
                Some(state) => state.restore(cell),
                None => unreachable!(),
            },
        }
    }

    /// What a register holds, with the number of its writes that stand, if there is such a register.
    pub fn state(&self, register: Reg) -> Option<&RegisterState>
        ensures { option_copied result ≡ register_of self.now register }
    {
        match register {
            Reg::R(p) => self.of_processes.get(p.index()),
            Reg::Dec => self.of_decision.as_ref(),
        }
    }
}
