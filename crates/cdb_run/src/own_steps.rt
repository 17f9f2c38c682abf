//! The steps of one process as a history has them, each access with the number of writes before it.

ghost use Rattle.std.specs.Prelude.{◌≡◌, ◌↔◌, ℕ, Some, IsTrue};
ghost use Rattle.cdb_base.specs.Positions.{nth};
ghost use Rattle.cdb_rules.specs.OwnSteps.{writes_met, own_steps};
ghost use Rattle.cdb_standing.specs.Comparisons.{AreNumbered, writes_before as writes_at};
ghost use Rattle.cdb_standing.specs.Moves.{StandsIn};

use cdb_base::{Event, Kind, Proc, StepId, StepName};
use cdb_rules::OwnEvent;
use cdb_standing::History;

/// Of the register that a standing event reads or writes, how many writes stand before it.
fn met_by(history: &History, event: &Event) -> Option<usize>
    requires { StandsIn history.now event.now }
    ensures { (at : ℕ) → nth history.now at ≡ Some event.now →
        result ≡ writes_met (writes_at history.now at) event.now }
{
    match *event {
        Event::Step {
            p,
            k,
            kind: Kind::Read(register),
        } => Some(history.writes_before(register, p, k)),
        Event::Step {
            p,
            k,
            kind: Kind::Write(register),
        } => Some(history.writes_before(register, p, k)),
        _ => None,
    }
}

/// The `k`-th step of process `p`, if it stands.
fn own_step(history: &History, p: Proc, k: u16) -> Option<OwnEvent>
    requires { AreNumbered p history.now }
    ensures { result ≡ nth (own_steps p history.now) k }
{
    let event = history.find(StepId::Step(StepName { p, k }))?;
    let writes_before = met_by(history, &event);
    Some(OwnEvent {
        event,
        writes_before,
    })
}

/// Whether process `p` takes the same steps in both histories, each access after as many writes.
pub(crate) fn same_steps(p: Proc, history: &History, other: &History) -> bool
    ensures { IsTrue result ↔ (own_steps p history.now ≡ own_steps p other.now) }
{
    let count = history.steps_of(p);
    if other.steps_of(p) != count {
        return false;
    }
    for i in 0..count {
        if own_step(history, p, i + 1) != own_step(other, p, i + 1) {
            return false;
        }
    }
    true
}
