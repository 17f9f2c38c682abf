//! The past of an event, by numbers: of each process the steps up to one.

ghost use Rattle.std.specs.Prelude.{◌↔◌, IsTrue};
ghost use Rattle.cdb_base.specs.Event.{event_name};
ghost use Rattle.cdb_standing.specs.LedTo.{IsUpTo};

use cdb_base::Event;

/// Whether the event is one of the steps up to the numbers, or the last event itself.
pub(crate) fn is_up_to(numbers: &[usize; 9], last: &Event, event: &Event) -> bool
    ensures { IsTrue result ↔ IsUpTo numbers.now (event_name last.now) event.now }
{
    match event {
        Event::Step { p, k, .. } => usize::from(*k) <= numbers[p.index()],
        Event::Lost(_) => event.name() == last.name(),
    }
}
