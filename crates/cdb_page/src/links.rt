//! The direct causes and the direct dependents of the events of a history, by position, from 1.

ghost use Rattle.std.specs.Prelude.{◌≤◌, length, IfOk};
ghost use Rattle.cdb_causal.specs.Causality.{IsDirectCause};
ghost use Rattle.cdb_causal.specs.Dependence.{depends as depends_of};
ghost use Rattle.cdb_page.specs.Listed.{AreAllIn, IsNeededBy};

use cdb_base::{Event, NoMemory};
use cdb_causal::{is_direct_cause, is_linked};
use std::alloc::Global;

/// The direct causes of the event at a position, and those of which it is one.
pub(crate) fn direct_links(
    alloc: Global,
    events: &[Event],
    at: usize,
) -> Result<(Vec<usize>, Vec<usize>), NoMemory>
    requires from_one { 1 ≤ at }
    requires to_len { at ≤ length events.now }
    ensures causes { IfOk result (λ found. AreAllIn events.now
        (λ other. IsDirectCause depends_of events.now other at) found.0.items) }
    ensures dependents { IfOk result (λ found. AreAllIn events.now
        (λ other. IsDirectCause depends_of events.now at other) found.1.items) }
{
    let mut causes = Vec::new(alloc);
    let mut dependents = Vec::new(alloc);
    for i in 0..events.len() {
        if is_direct_cause(events, i + 1, at) {
            causes.push(i + 1)?;
        }
        if is_direct_cause(events, at, i + 1) {
            dependents.push(i + 1)?;
        }
    }
    Ok((causes, dependents))
}

/// The first event that depends on the one at a position, if one does.
pub(crate) fn needed_by(events: &[Event], at: usize) -> Option<usize>
    requires from_one { 1 ≤ at }
    ensures { IsNeededBy events.now at result }
{
    for i in 0..events.len() {
        if is_linked(events, at, i + 1) {
            return Some(i + 1);
        }
    }
    None
}
