//! What stands in a run, and what led to an event: its past, flagged by position in the history.
//!
//! ```text
//! let (setup, history) = run.into_parts();
//! let run = Trace::new(alloc, setup, history)?;
//! let flags = run.flag_past(alloc, 4)?;
//! let led_to_it = flags[0];
//! ```

ghost use Rattle.std.specs.Prelude.{◌≡◌, ◌≤◌, length, IfOk};
ghost use Rattle.cdb_rules.specs.Flags.{FlagsPast};

use crate::past::is_up_to;
use cdb_base::{Event, NoMemory};
use cdb_setup::Setup;
use cdb_standing::History;
use std::alloc::Global;
use std::marker::Model;

/// The setup of a run and its standing events, without what they have come to and what takes them back.
#[derive(Drop)]
pub struct Trace {
    setup: Setup,
    history: History,
    /// The events of the history, in order.
    events: Vec<Event>,
}

impl Model for Trace {
    ghost use Rattle.std.specs.Prelude.{◌≡◌};
    ghost use Rattle.cdb_rules.specs.RunView.{RunView};

    ghost Value = { RunView };

    ghost view = { λ fields. record { setup = fields.setup; history = fields.history } };

    ghost invariant = { λ fields. fields.events.items ≡ fields.history };
}

impl Trace {
    /// A setup with events that stand.
    pub fn new(alloc: Global, setup: Setup, history: History) -> Result<Self, NoMemory>
        ensures { IfOk result (λ run. run ≡ record { setup = setup; history = history }) }
    {
        let events = history.to_vec(alloc)?;
        Ok(Trace {
            setup,
            history,
            events,
        })
    }

    /// The setup.
    pub fn setup(&self) -> &Setup
        ensures { result.now ≡ self.now.setup }
    {
        &self.setup
    }

    /// The standing events, in the order in which they were taken.
    pub fn events(&self) -> &[Event]
        ensures { result.now ≡ self.now.history }
    {
        self.events.as_slice()
    }

    /// Flags what led to the event at a position, from 1 to the number of events: the event itself, and each
    /// from which a chain of dependences leads to it. It can fail only out of memory.
    pub fn flag_past(&self, alloc: Global, at: usize) -> Result<Vec<bool>, NoMemory>
        requires from_one { 1 ≤ at }
        requires to_len { at ≤ length self.now.history }
        ensures { IfOk result (λ flags. FlagsPast self.now.history at flags.items) }
    {
        let events = self.events();
        let last = &events[at - 1];
        let numbers = self.history.past(last.name());
        let mut flags = Vec::with_capacity(alloc, events.len())?;
        for event in events {
            flags.push(is_up_to(&numbers, last, event))?;
        }
        Ok(flags)
    }
}
