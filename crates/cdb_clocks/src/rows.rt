//! The clocks of the steps so far, a row for each process.

ghost use Rattle.std.specs.Prelude.{◌≡◌, ℕ, [], length, IfOk, OnOk};
ghost use Rattle.cdb_clocks.specs.Rows.{clock_in};
ghost use Rattle.cdb_standing.specs.Tables.{rows_in, row_of, IsPutOn};

use crate::clock::Clock;
use cdb_base::{NoMemory, Proc};
use std::alloc::Global;

/// Rows without clocks, for nine processes.
pub(crate) fn empty_rows(alloc: Global) -> Result<Vec<Vec<Clock>>, NoMemory>
    ensures count { IfOk result (λ rows. length rows.items ≡ 9) }
    ensures empty { IfOk result (λ rows. (q : ℕ) → row_of (rows_in rows.items) q ≡ []) }
{
    let mut rows = Vec::new(alloc);
    for _i in 0..9usize {
        rows.push(Vec::new(alloc))?;
    }
    Ok(rows)
}

/// The clock of the `k`-th step of process `p`; that of nothing, where the rows have none.
pub(crate) fn clock_at(rows: &Vec<Vec<Clock>>, p: Proc, k: u16) -> Clock
    requires { length rows.now.items ≡ 9 }
    ensures { result ≡ clock_in (rows_in rows.now.items) p k }
{
    if k == 0 {
        return [0; 9];
    }
    rows[p.index()]
        .get(k as usize - 1)
        .copied()
        .unwrap_or([0; 9])
}

/// Adds the clock of the next step of process `p`.
pub(crate) fn add_clock(rows: &mut Vec<Vec<Clock>>, p: Proc, clock: Clock) -> Result<(), NoMemory>
    requires { length rows.old.items ≡ 9 }
    ensures { OnOk result (IsPutOn p (rows_in rows.old.items) clock (rows_in rows.new.items)) }
{
    rows[p.index()].push(clock)?;
    Ok(())
}
