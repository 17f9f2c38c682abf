//! How two runs compare.

ghost use Rattle.std.specs.Prelude.{◌≡◌, ◌↔◌, IfOk};
ghost use Rattle.cdb_causal.specs.Dependence.{depends};
ghost use Rattle.cdb_causal.specs.Exchange.{IsExchanged};
ghost use Rattle.cdb_rules.specs.ByRules.{IsInOrder};
ghost use Rattle.cdb_same.specs.Comparisons.{IsComparable, IsComparison};

use crate::compare::{Comparison, compare};
use cdb_base::NoMemory;
use cdb_explain::played;
use cdb_rules::{Runs, Trace};
use cdb_standing::History;
use std::alloc::Global;

/// The history of a run, in which events are looked for by their names: the run is played again.
pub fn history_of<T: Runs>(alloc: Global, run: &Trace) -> Result<History, NoMemory>
    requires { IsInOrder T.rules run.now }
    ensures history { IfOk result (λ history. history ≡ run.now.history) }
    ensures comparable { IfOk result IsComparable }
{
    // Its clause says that the parts of the setup are in range.
    let _ranges = run.setup().n();
    let again = played::<T>(alloc, run, run.events())?;
    let (_setup, history) = again.into_parts();
    Ok(history)
}

/// How two runs compare: whether exchanges of independent neighbours lead from the history of one to that of the
/// other, or
/// which event stands in one alone, or which two that depend on each other stand in other orders. Each is played again.
///
/// Promise: Two runs are shown to be the same exactly where exchanges of independent neighbours lead from one history
/// to the other. Else an event is named that stands in one alone, or two that depend on each other, in the order of the
/// first, which stand turned round in the second.
pub fn compare_runs<T: Runs>(
    alloc: Global,
    first: &Trace,
    second: &Trace,
) -> Result<Comparison, NoMemory>
    requires first { IsInOrder T.rules first.now }
    requires second { IsInOrder T.rules second.now }
    ensures comparison { IfOk result (IsComparison first.now.history second.now.history) }
    ensures same { IfOk result (λ found.
        (found ≡ Comparison.Same) ↔ IsExchanged depends first.now.history second.now.history) }
{
    let history = history_of::<T>(alloc, first)?;
    let other = history_of::<T>(alloc, second)?;
    compare(alloc, &history, &other)
}
