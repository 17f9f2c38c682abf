//! What a page has of each event.

ghost use Rattle.std.specs.Prelude.{◌≡◌, ◌≤◌, ◌<◌, suc, length, IfOk};
ghost use Rattle.cdb_agreement.specs.Algorithms.{rules};
ghost use Rattle.cdb_page.specs.Entries.{AreEntries, IsEntry};
ghost use Rattle.cdb_rules.specs.ByRules.{IsInOrder};
ghost use Rattle.cdb_trail.specs.Origins.{IsOriginIn};

use crate::links::{direct_links, needed_by};
use cdb_base::NoMemory;
use cdb_rules::Trace;
use cdb_trail::{Origin, origins_of};
use std::alloc::Global;

/// What a page has of an event: by position, from 1, its direct causes and those of which it is one, and the first
/// event that needs it; and from where its value came.
#[derive(Drop)]
pub struct Entry {
    pub causes: Vec<usize>,
    pub dependents: Vec<usize>,
    pub needed: Option<usize>,
    pub origin: Option<Origin>,
}

/// The entry of the event at a position, from 1, whose value came from there.
fn entry_at(
    alloc: Global,
    run: &Trace,
    at: usize,
    origin: Option<Origin>,
) -> Result<Entry, NoMemory>
    requires from_one { 1 ≤ at }
    requires to_len { at ≤ length run.now.history }
    requires origin { IsOriginIn run.now at origin }
    ensures { IfOk result (IsEntry run.now at) }
{
    let events = run.events();
    let (causes, dependents) = direct_links(alloc, events, at)?;
    Ok(Entry {
        causes,
        dependents,
        needed: needed_by(events, at),
        origin,
    })
}

/// An entry for each event of a run, in order.
pub(crate) fn entries_of(alloc: Global, run: &Trace) -> Result<Vec<Entry>, NoMemory>
    requires { IsInOrder rules run.now }
    ensures { IfOk result (λ entries. AreEntries run.now entries.items) }
{
    let origins = origins_of(alloc, run)?;
    let mut entries = Vec::new(alloc);
    for i in 0..origins.len() {
        entries.push(entry_at(alloc, run, i + 1, origins[i])?)?;
    }
    Ok(entries)
}
