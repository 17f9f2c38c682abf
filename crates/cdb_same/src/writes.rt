//! Two scripts are carried out without their replies, and it is written how the runs compare that they leave.

ghost use Rattle.std.specs.Prelude.{◌≡◌, ◌↔◌, IfErr, IfOk, IsTrue};
ghost use Rattle.cdb_causal.specs.Dependence.{depends};
ghost use Rattle.cdb_causal.specs.Exchange.{IsExchanged};
ghost use Rattle.cdb_explain.specs.RunLeft.{IsFaultOfRun, IsRunLeft};
ghost use Rattle.cdb_rules.specs.ByRules.{IsInOrder};
ghost use Rattle.cdb_same.specs.Same.{as_second, same_ending, ComparesText, IsFaultOfOutput};
ghost use Rattle.cdb_same.specs.Same.{IsFaultOfSame, IsTextOfTwo, DecidesSame};
ghost use Rattle.cdb_streams.specs.Written.{IsWritten};

use crate::compare::Comparison;
use crate::runs::compare_runs;
use crate::text::text_of;
use cdb_explain::run_left_by;
use cdb_rules::{Runs, Trace};
use cdb_streams::{PlayFault, Sink, write_text};
use std::alloc::Global;

/// The fault of the second script, where this would be that of an only one.
fn as_second(fault: PlayFault) -> PlayFault
    ensures { result ≡ as_second fault }
{
    match fault {
        PlayFault::Line(_, line, fault) => PlayFault::Line(2, line, fault),
        PlayFault::ScriptTooLong(_) => PlayFault::ScriptTooLong(2),
        fault => fault,
    }
}

/// The run that the second script leaves.
fn second_run_of<T: Runs>(alloc: Global, setup: &[u8], script: &[u8]) -> Result<Trace, PlayFault>
    ensures left { IfOk result (IsRunLeft T.rules setup.now script.now) }
    ensures valid { IfOk result (IsInOrder T.rules) }
    ensures fault { IfErr result (λ fault.
        (its : PlayFault) × (fault ≡ as_second its) × IsFaultOfRun setup.now script.now its) }
{
    match run_left_by::<T>(alloc, setup, script) {
        Ok(run) => Ok(run),
        Err(fault) => Err(as_second(fault)),
    }
}

/// Writes how two runs compare, and returns whether they are the same. The text is whole before any of it is written.
fn write_comparison<T: Runs, W: Sink>(
    alloc: Global,
    first: &Trace,
    second: &Trace,
    out: &mut W,
) -> Result<bool, PlayFault>
    requires first { IsInOrder T.rules first.now }
    requires second { IsInOrder T.rules second.now }
    ensures wrote { IsWritten W.stream (same_ending result) out.old out.new
        (IsTextOfTwo first.now.history second.now.history) }
    ensures same { IfOk result (λ same. IsTrue same ↔ IsExchanged depends first.now.history second.now.history) }
    ensures fault { IfErr result IsFaultOfOutput }
{
    let found = compare_runs::<T>(alloc, first, second)?;
    let text = text_of(alloc, &found)?;
    write_text(alloc, text.as_slice(), out)?;
    Ok(matches!(found, Comparison::Same))
}

/// Writes how the runs compare that two scripts leave on one setup, and returns whether they are the same run.
///
/// The setup is read first, then the first script, which is carried out, and then the second. The text is whole before
/// any of it is written. So after `Write` what was written is a beginning of the text, and after any other fault
/// nothing was written. A fault of a script has its number, 1 or 2; `Read` never comes.
///
/// Promise: Two scripts are told to leave the same run exactly where exchanges of independent neighbours lead from one
/// history to the other. Else what is written names an event that stands in one run alone, or two that depend on each
/// other, in the order of the first run, which stand turned round in the second. After a fault nothing was written, but
/// after a failed write a beginning.
pub fn same<T: Runs, W: Sink>(
    alloc: Global,
    setup: &[u8],
    first: &[u8],
    second: &[u8],
    out: &mut W,
) -> Result<bool, PlayFault>
    ensures wrote { IsWritten W.stream (same_ending result) out.old out.new
        (ComparesText T.rules setup.now first.now second.now) }
    ensures same { IfOk result (DecidesSame T.rules setup.now first.now second.now) }
    ensures fault { IfErr result (IsFaultOfSame setup.now first.now second.now) }
{
    let first = run_left_by::<T>(alloc, setup, first)?;
    let second = second_run_of::<T>(alloc, setup, second)?;
    write_comparison::<T, W>(alloc, &first, &second, out)
}
