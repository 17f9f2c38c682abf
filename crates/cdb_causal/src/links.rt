//! Which events of a list are linked, and which directly, by position, from 1.

ghost use Rattle.std.specs.Prelude.{◌↔◌, ◌≤◌, IsTrue, length};
ghost use Rattle.cdb_causal.specs.Causality.{IsDirectCause, IsLink};
ghost use Rattle.cdb_causal.specs.Dependence.{depends as depends_of};

use crate::dependence::depends;
use cdb_base::Event;

/// Whether the event at position `j` is later than the one at position `i` and depends on it.
pub fn is_linked(events: &[Event], i: usize, j: usize) -> bool
    requires from_one { 1 ≤ i }
    requires to_len { j ≤ length events.now }
    ensures { IsTrue result ↔ IsLink depends_of events.now i j }
{
    i < j && depends(&events[i - 1], &events[j - 1])
}

/// Whether the event at position `k` lies between them: it depends on the one, and the other depends on it.
fn is_between(events: &[Event], i: usize, k: usize, j: usize) -> bool
    requires from_one { 1 ≤ i }
    requires from_one_too { 1 ≤ k }
    requires to_len { k ≤ length events.now }
    requires to_len_too { j ≤ length events.now }
    ensures { IsTrue result ↔ (IsLink depends_of events.now i k × IsLink depends_of events.now k j) }
{
    is_linked(events, i, k) && is_linked(events, k, j)
}

/// Whether the event at position `i` is a direct cause of the one at position `j`: that one is later and depends on it,
/// with nothing between them.
pub fn is_direct_cause(events: &[Event], i: usize, j: usize) -> bool
    requires from_one { 1 ≤ i }
    requires to_len { j ≤ length events.now }
    ensures { IsTrue result ↔ IsDirectCause depends_of events.now i j }
{
    if !is_linked(events, i, j) {
        return false;
    }
    for k in i..j {
        if is_between(events, i, k, j) {
            return false;
        }
    }
    true
}
