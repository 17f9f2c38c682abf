//! The clock of each step, by those of its direct causes.

ghost use Rattle.std.specs.Prelude.{◌≡◌, ℕ, suc, Some, length, IfOk, OnOk};
ghost use Rattle.cdb_base.specs.Event.{event_name};
ghost use Rattle.cdb_base.specs.Positions.{nth};
ghost use Rattle.cdb_base.specs.declared.event.Event.TheVariants.{Step};
ghost use Rattle.cdb_base.specs.declared.event.Kind.{Kind};
ghost use Rattle.cdb_base.specs.declared.name.StepId.TheVariants as named;
ghost use Rattle.cdb_clocks.specs.Clocks.{AreClocks, IsClock};
ghost use Rattle.cdb_clocks.specs.Rows.{clock_in, AreKept, AreKeptOn, IsRaisedBy, IsRaisedTo};
ghost use Rattle.cdb_same.specs.Comparisons.{AreNumberedUpTo, IsComparable};
ghost use Rattle.cdb_standing.specs.Moves.{IsStandingName};
ghost use Rattle.cdb_standing.specs.Tables.{rows_in};

use crate::rows::{add_clock, clock_at, empty_rows};
use cdb_base::{Event, NoMemory, Proc, StepId, StepName};
use cdb_same::numbered;
use cdb_standing::History;
use std::alloc::Global;

/// Of each process, in order of number, how many of its steps have led to an event.
pub type Clock = [u16; 9];

/// Raises each number of a clock to that of another one.
fn raise(clock: &mut Clock, other: &Clock)
    ensures { IsRaisedBy other.now clock.old clock.new }
{
    for i in 0..9 {
        if clock[i] < other[i] {
            clock[i] = other[i];
        }
    }
}

/// Raises a clock to that of a step, where the name is that of one.
fn raise_to(clock: &mut Clock, rows: &Vec<Vec<Clock>>, name: &StepId)
    requires { length rows.now.items ≡ 9 }
    ensures { IsRaisedTo (rows_in rows.now.items) name.now clock.old clock.new }
{
    if let StepId::Step(step) = name {
        raise(clock, &clock_at(rows, step.p, step.k));
    }
}

/// The clock of the next step: it has what has led to its direct causes, and the step itself.
fn next_clock(alloc: Global, history: &History, rows: &Vec<Vec<Clock>>, p: Proc, k: u16) -> Clock
    requires comparable { IsComparable history.now }
    requires numbered { AreNumberedUpTo history.now 9 }
    requires stands { IsStandingName history.now (named.Step (record { p = p; k = k })) }
    requires rows { length rows.now.items ≡ 9 }
    ensures { (end : ℕ) (kind : Kind) → nth history.now (suc end) ≡ Some (Step p k kind) →
        AreKept history.now end (rows_in rows.now.items) → IsClock history.now (suc end) result }
{
    let mut clock = [0; 9];
    let causes = history.direct_causes(alloc, StepId::Step(StepName { p, k }));
    for cause in causes.as_slice() {
        raise_to(&mut clock, rows, cause);
    }
    clock[p.index()] = k;
    clock
}

/// Adds the clock of the next event, if it is a step.
fn add_next(
    alloc: Global,
    history: &History,
    rows: &mut Vec<Vec<Clock>>,
    event: &Event,
) -> Result<(), NoMemory>
    requires comparable { IsComparable history.now }
    requires numbered { AreNumberedUpTo history.now 9 }
    requires stands { IsStandingName history.now (event_name event.now) }
    requires rows { length rows.old.items ≡ 9 }
    ensures next { OnOk result (AreKeptOn history.now event.now (rows_in rows.old.items) (rows_in rows.new.items)) }
    ensures rows { OnOk result (length rows.new.items ≡ 9) }
{
    match *event {
        Event::Step { p, k, .. } => {
            let clock = next_clock(alloc, history, rows, p, k);
            add_clock(rows, p, clock)
        }
        Event::Lost(_) => Ok(()),
    }
}

/// The clocks of the steps of a history in rows, each by those of its direct causes.
pub(crate) fn clocks_of(alloc: Global, history: &History) -> Result<Vec<Vec<Clock>>, NoMemory>
    requires { IsComparable history.now }
    ensures clocks { IfOk result (λ rows. AreClocks history.now (clock_in (rows_in rows.items))) }
    ensures rows { IfOk result (λ rows. length rows.items ≡ 9) }
{
    numbered(history);
    let events = history.to_vec(alloc)?;
    let mut rows = empty_rows(alloc)?;
    for event in events.as_slice() {
        add_next(alloc, history, &mut rows, event)?;
    }
    Ok(rows)
}
