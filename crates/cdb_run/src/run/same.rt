//! Whether two runs are in the same state.

ghost use Rattle.std.specs.Prelude.{◌≡◌, ◌↔◌, All, IsTrue};
ghost use Rattle.cdb_base.specs.Processes.{all_processes};
ghost use Rattle.cdb_causal.specs.Dependence.{depends};
ghost use Rattle.cdb_causal.specs.Exchange.{IsExchanged};
ghost use Rattle.cdb_rules.specs.OwnSteps.{own_steps};
ghost use Rattle.cdb_rules.specs.Runs.{AreInSameState};
ghost use Rattle.cdb_run.specs.Alike.{AreAlike};

use crate::own_steps::same_steps;
use crate::run::Run;
use cdb_base::Proc;
use cdb_process::Process;
use cdb_standing::History;

/// Whether each process takes the same steps in both histories.
fn same_steps_of_each(history: &History, other: &History) -> bool
    ensures { IsTrue result
        ↔ All (λ p. own_steps p history.now ≡ own_steps p other.now) all_processes }
{
    Proc::all().iter().all(|p| same_steps(*p, history, other))
}

/// Whether two histories say the same of each process and of what is lost.
fn are_alike(history: &History, other: &History) -> bool
    ensures { IsTrue result ↔ AreAlike history.now other.now }
{
    same_steps_of_each(history, other) && history.has_same_losses(other)
}

impl<P: Process> Run<P> {
    /// Whether both runs are in the same state: each process has the same events, each access after
    /// as many writes of its register, and the same copies are lost. The histories are then equal up
    /// to exchange of neighbours that do not depend on each other. It takes no memory.
    ///
    /// Promise: Two runs of equal setups are in one state exactly where exchanges of independent neighbours lead from
    /// one history to the other. It takes no memory.
    pub fn same_run(&self, other: &Run<P>) -> bool
        requires { self.now.setup ≡ other.now.setup }
        ensures state { IsTrue result ↔ AreInSameState P.table self.now other.now }
        ensures exchange { IsTrue result
            ↔ IsExchanged depends self.now.history other.now.history }
    {
        self.proper();
        other.proper();
        are_alike(self.history(), other.history())
    }
}
