//! How two histories compare.

ghost use Rattle.std.specs.Prelude.{IfOk};
ghost use Rattle.cdb_same.specs.Comparisons.{IsComparable, IsComparison};

use crate::alone::alone;
use crate::order::other_order;
use cdb_base::{Event, NoMemory};
use cdb_standing::History;
use std::alloc::Global;

/// One of two runs.
#[derive(Clone, Copy, PartialEq, Eq)]
pub enum Which {
    First,
    Second,
}

/// How two runs compare.
#[derive(Clone, Copy, PartialEq, Eq)]
pub enum Comparison {
    /// They are one run: equal up to exchange of neighbours that do not depend on each other.
    Same,
    /// The event stands in this run alone.
    Alone(Which, Event),
    /// The events depend on each other and stand in both runs: in this order in the first, and turned round in the
    /// second.
    OtherOrder(Event, Event),
}

/// How two histories compare.
pub(crate) fn compare(
    alloc: Global,
    first: &History,
    second: &History,
) -> Result<Comparison, NoMemory>
    requires first { IsComparable first.now }
    requires second { IsComparable second.now }
    ensures { IfOk result (IsComparison first.now second.now) }
{
    let events = first.to_vec(alloc)?;
    let others = second.to_vec(alloc)?;
    if let Some(event) = alone(events.as_slice(), second) {
        return Ok(Comparison::Alone(Which::First, event));
    }
    if let Some(event) = alone(others.as_slice(), first) {
        return Ok(Comparison::Alone(Which::Second, event));
    }
    match other_order(alloc, first, second, others.as_slice()) {
        Some((event, other)) => Ok(Comparison::OtherOrder(event, other)),
        None => Ok(Comparison::Same),
    }
}
