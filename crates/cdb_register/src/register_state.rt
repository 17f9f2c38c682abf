//! One register.

ghost use Rattle.std.specs.Prelude.{◌≡◌, ◌<◌};

use cdb_base::Cell;

/// What one register holds, and how many writes of it stand.
#[derive(Clone, Copy)]
pub struct RegisterState {
    pub cell: Cell,
    pub writes: u32,
}

impl RegisterState {
    ghost use Rattle.cdb_register.specs.Registers.{fresh_register, most_writes, put_cell, restored};

    /// A register that nobody has written.
    pub(crate) fn fresh() -> Self
        ensures { result ≡ fresh_register }
    {
        let cell = Cell {
            lre: 0,
            lrww: 0,
            val: None,
        };
        RegisterState { cell, writes: 0 }
    }

    /// Writes a cell, where fewer than 999,999 writes stand. Returns the cell that was overwritten.
    pub(crate) fn write(&mut self, cell: Cell) -> Cell
        requires { self.old.writes < most_writes }
        ensures overwritten { result ≡ self.old.cell }
        ensures after { self.new ≡ put_cell cell self.old }
    {
        let overwritten = self.cell;
        self.cell = cell;
        self.writes += 1;
        overwritten
    }

    /// Puts a cell back, where a write stands.
    pub(crate) fn restore(&mut self, cell: Cell)
        requires { 0 < self.old.writes }
        ensures { self.new ≡ restored cell self.old }
    {
        self.cell = cell;
        self.writes -= 1;
    }
}
