//! The step that is asked for.

ghost use Rattle.std.specs.Prelude.{◌≡◌, MatchOption};
ghost use Rattle.cdb_explain.specs.Asked.{is_asked, IsStepAsked, StandsNoStep};

use cdb_base::Event;

/// Whether the event is a step of process `p`, the `k`-th where a number is given.
fn is_asked(event: &Event, p: u32, k: Option<u32>) -> bool
    ensures { result ≡ is_asked p k event.now }
{
    match *event {
        Event::Step {
            p: q,
            k: number,
            ..
        } => { u32::from(q.number()) == p && k.is_none_or(|k| u32::from(number) == k) }
        Event::Lost(_) => false,
    }
}

/// The position, from 1, of the `k`-th standing step of process `p`; without `k` that of its last
/// standing step. Nothing where no such step stands.
pub fn position_of_step(events: &[Event], p: u32, k: Option<u32>) -> Option<usize>
    ensures { MatchOption result (StandsNoStep events.now p k)
        (λ position. IsStepAsked events.now p k position) }
{
    for i in (0..events.len()).rev() {
        if is_asked(&events[i], p, k) {
            return Some(i + 1);
        }
    }
    None
}
