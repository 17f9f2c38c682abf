//! What is shown of a run, whatever its machine.

ghost use Rattle.std.specs.Prelude.{◌≡◌, ◌≤◌, Some, option_map};
ghost use Rattle.cdb_rules.specs.Rules.{rules_of};
ghost use Rattle.cdb_rules.specs.Views.{seen_as};

use cdb_base::{Proc, ProcView};
use cdb_process::Process;
use cdb_run::Run;
use cdb_setup::Algorithm;

/// A process of the run as it is shown.
pub(crate) fn view_of<P: Process>(run: &Run<P>, p: Proc) -> ProcView
    requires { p ≤ run.now.setup.processes }
    ensures { option_map (seen_as run.now.setup p)
        ((rules_of P.table run.now.setup).process run.now.history p) ≡ Some result }
{
    let local = run.local(p);
    ProcView {
        p,
        alpha: run.setup().algorithm() == Algorithm::Alpha,
        place: local.place(),
        round: local.round(),
        alive: run.alive(p),
        steps: run.steps(p),
        queries: run.queries(p),
        decision: local.decision(),
    }
}
