//! A run of which it is known what its next event does.

ghost use Rattle.std.specs.Prelude.{◌≡◌, IfOk};
ghost use Rattle.cdb_deeds.specs.Deeds.{deed_in, received_by_each};

use crate::deed::Deed;
use crate::received::ReceivedNames;
use cdb_base::{Event, NoMemory};
use cdb_rules::Runs;
use std::alloc::Global;

/// A run of which it is known what its next event does.
pub trait HasDeeds: Runs {
    /// What an event does that comes next in the run, in which these messages were received. `NoMemory` if an
    /// allocation fails.
    fn deed(&self, alloc: Global, names: &ReceivedNames, event: &Event) -> Result<Deed, NoMemory>
        requires { names.now ≡ received_by_each (Self.run self.now).history }
        ensures { IfOk result (λ deed. deed ≡ deed_in (Self.run self.now) event.now) };
}
