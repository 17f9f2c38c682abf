//! What a step changes in how far its process has come.

ghost use Rattle.std.specs.Prelude.{◌≡◌, ◌<◌, ◌≤◌, length, map, Some, IsSome, IfOk, OnErr};
ghost use Rattle.std.specs.Option.{ForSome};
ghost use Rattle.cdb_base.specs.Limits.{MAX_PROCESSES, MAX_STEPS};
ghost use Rattle.cdb_rules.specs.Decisions.{decided_from};
ghost use Rattle.cdb_run.specs.Back.{put_back};
ghost use Rattle.cdb_run.specs.Stepped.{HasCounted};
ghost use Rattle.cdb_rules.specs.InputsTaken.{taken_local, progress_after};

use cdb_base::{Kind, NoMemory, Proc, Val};
use cdb_process::{Input, Process};
use cdb_rules::Progress;
use std::alloc::Global;

/// Gives a machine its input, if a step has one. A refused growth changes nothing.
pub(crate) fn take_input<P: Process>(
    alloc: Global,
    local: &mut P,
    input: Option<Input>,
) -> Result<Option<P::Back>, NoMemory>
    requires { ForSome input (λ given. IsSome (P.table.next local.old given)) }
    ensures next { IfOk result (λ _. taken_local P.table.next local.old input ≡ Some local.new) }
    ensures back { IfOk result (λ back. put_back P.before local.new back ≡ local.old) }
    ensures unchanged { OnErr result (local.new ≡ local.old) }
{
    match input {
        Some(given) => Ok(Some(local.take(alloc, given)?)),
        None => Ok(None),
    }
}

/// Puts back what an input left.
#[inline(always)]
pub(crate) fn give_back<P: Process>(local: &mut P, back: Option<P::Back>)
    ensures { local.new ≡ put_back P.before local.old back }
{
    if let Some(back) = back {
        local.put_back(back);
    }
}

/// Counts a step of that kind.
pub(crate) fn count<P: Process>(progress: &mut Progress<P>, kind: &Kind)
    requires steps { progress.old.steps < MAX_STEPS }
    requires queries { progress.old.queries ≤ progress.old.steps }
    ensures { progress.new ≡ progress_after progress.old kind.now progress.old.local }
{
    progress.steps += 1;
    match kind {
        Kind::Query(_) => progress.queries += 1,
        Kind::Crash => progress.alive = false,
        _ => {}
    }
}

/// Takes a step of that kind, with what its input left, back to the progress from which it was taken.
pub(crate) fn count_back<P: Process>(progress: &mut Progress<P>, kind: &Kind, back: Option<P::Back>)
    requires { (was : Progress P) × HasCounted P.before was kind.now back progress.old }
    ensures { (was : Progress P) → HasCounted P.before was kind.now back progress.old → progress.new ≡ was }
{
    give_back(&mut progress.local, back);
    progress.alive = true;
    progress.steps -= 1;
    if let Kind::Query(_) = kind {
        progress.queries -= 1;
    }
}

/// Of processes 1, 2 and so on those that have decided, in order, each with its value.
pub(crate) fn decided<P: Process>(
    alloc: Global,
    processes: &[Progress<P>],
) -> Result<Vec<(Proc, Val)>, NoMemory>
    requires { length processes.now ≤ MAX_PROCESSES }
    ensures { IfOk result (λ found. found.items
        ≡ decided_from P.table.decision 1 (map (λ progress. progress.local) processes.now)) }
{
    let mut found = Vec::new(alloc);
    for (i, progress) in processes.iter().enumerate() {
        if let Some(value) = progress.local.decision() {
            found.push((Proc::new(i as u8 + 1), value))?;
        }
    }
    Ok(found)
}
