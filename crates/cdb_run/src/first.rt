//! The processes of a run in which nothing has happened, and how many registers there are.

ghost use Rattle.std.specs.Prelude.{◌≡◌, ◌≤◌, if◌then◌else◌, IfOk};
ghost use Rattle.cdb_base.specs.Limits.{MAX_PROCESSES};
ghost use Rattle.cdb_rules.specs.Machines.{progress_at_start, uses_registers};

use cdb_base::{NoMemory, Proc};
use cdb_process::Process;
use cdb_rules::Progress;
use cdb_setup::{Algorithm, Setup};
use std::alloc::Global;

/// The processes of a setup in their first local states.
pub(crate) fn first_processes<P: Process>(
    alloc: Global,
    setup: &Setup,
) -> Result<Vec<Progress<P>>, NoMemory>
    ensures { IfOk result (λ processes. processes.items ≡ progress_at_start P.table setup.now) }
{
    let n = setup.n();
    let mut processes = Vec::new(alloc);
    for i in 0..n {
        let p = Proc::new(i + 1);
        let local = P::first(alloc, p, n, setup.q(), setup.input(p))?;
        processes.push(Progress {
            local,
            alive: true,
            steps: 0,
            queries: 0,
        })?;
    }
    Ok(processes)
}

/// How many processes have a register: each one in Alpha, where the other algorithm has none.
pub(crate) fn with_registers(setup: &Setup) -> u8
    ensures number { result
        ≡ (if uses_registers setup.now.algorithm then setup.now.processes else 0) }
    ensures few { result ≤ MAX_PROCESSES }
{
    let n = setup.n();
    match setup.algorithm() {
        Algorithm::Leader => 0,
        Algorithm::Alpha => n,
    }
}
