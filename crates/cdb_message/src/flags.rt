//! Sets of names and of copies as tables with a flag for each.

ghost use Rattle.std.specs.Prelude.{◌≡◌, ℕ, ◌<◌, ◌^◌, true, false, vec_len, OnOk, OnErr};
ghost use Rattle.cdb_message.specs.Flags.{flag_in, SetsFlag, cells, name_at, copy_at};

use cdb_base::{CopyName, MsgName, NoMemory};

/// The cell of a name.
#[tactic(auto, using(crate::proofs::Sets::name_itself))]
pub(crate) fn cell_of_name(name: MsgName) -> usize
    ensures named { name_at result ≡ name }
    ensures small { result < 2 ^ 20 }
{
    name.m as usize * 9 + name.s.index()
}

/// The cell of a copy.
#[tactic(auto, using(crate::proofs::Sets::copy_itself))]
pub(crate) fn cell_of_copy(copy: CopyName) -> usize
    ensures named { copy_at result ≡ copy }
    ensures small { result < cells }
{
    cell_of_name(copy.msg) * 9 + copy.to.index()
}

/// Whether the flag in a cell is set; beyond the end of the table none is.
pub(crate) fn is_set(flags: &[bool], cell: usize) -> bool
    ensures { result ≡ flag_in flags.now cell }
{
    flags.get(cell).copied().unwrap_or(false)
}

/// Makes room for a cell. The new flags are not set.
fn grow(flags: &mut Vec<bool>, cell: usize) -> Result<(), NoMemory>
    requires { cell < cells }
    ensures others { (n : ℕ) → flag_in flags.new.items n ≡ flag_in flags.old.items n }
    ensures room { OnOk result (cell < vec_len flags.new) }
{
    if flags.len() <= cell {
        flags.resize(cell + 1, false)?;
    }
    Ok(())
}

/// Sets the flag in a cell. Where an allocation fails, all flags are as they were.
pub(crate) fn set(flags: &mut Vec<bool>, cell: usize) -> Result<(), NoMemory>
    requires { cell < cells }
    ensures ok { OnOk result (SetsFlag flags.old.items flags.new.items cell true) }
    ensures err { OnErr result ((n : ℕ) → flag_in flags.new.items n ≡ flag_in flags.old.items n) }
{
    grow(flags, cell)?;
    flags[cell] = true;
    Ok(())
}

/// Clears the flag in a cell.
pub(crate) fn clear(flags: &mut Vec<bool>, cell: usize)
    ensures { SetsFlag flags.old.items flags.new.items cell false }
{
    if cell < flags.len() {
        flags[cell] = false;
    }
}
