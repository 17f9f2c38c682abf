//! What the ways of arrows are for, and up to where a run is drawn whole.

ghost use Rattle.std.specs.Prelude.{◌≡◌};
ghost use Rattle.cdb_draw.specs.Apart.{ArrowsKeepOff};
ghost use Rattle.cdb_draw.specs.Limits.{MOST_DRAWN as most_drawn};

use crate::layout::MOST_DRAWN;

/// No arrow of a message touches a mark that is not one of its ends: it keeps 8 units from the middle of each.
pub fn arrows_keep_off_marks()
    ensures { ArrowsKeepOff }
{}

/// The limit of what is drawn whole is the number that definitions have.
pub fn most_drawn_is_defined()
    ensures { MOST_DRAWN ≡ most_drawn }
{}
