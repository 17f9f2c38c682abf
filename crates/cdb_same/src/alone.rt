//! Events that stand in one history alone.

ghost use Rattle.std.specs.Prelude.{◌↔◌, IsTrue, MatchOption};
ghost use Rattle.cdb_causal.specs.Exchange.{IsIn};
ghost use Rattle.cdb_same.specs.Comparisons.{IsAlone};
ghost use Rattle.cdb_same.specs.Come.{StandWithin};

use cdb_base::Event;
use cdb_standing::History;

/// Whether the event stands in the history.
fn stands(history: &History, event: &Event) -> bool
    ensures { IsTrue result ↔ IsIn event.now history.now }
{
    match history.find(event.name()) {
        Some(found) => found == *event,
        None => false,
    }
}

/// The first of the events that does not stand in the history.
pub(crate) fn alone(events: &[Event], history: &History) -> Option<Event>
    ensures { MatchOption result (StandWithin events.now history.now)
        (IsAlone events.now history.now) }
{
    for event in events {
        if !stands(history, event) {
            return Some(*event);
        }
    }
    None
}
