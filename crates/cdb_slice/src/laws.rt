//! That a script of events plays them.

ghost use Rattle.std.specs.Prelude.{List, IsTrue};
ghost use Rattle.cdb_base.specs.declared.event.Event.{Event};
ghost use Rattle.cdb_setup.specs.Parts.{Parts, AreInRange};
ghost use Rattle.cdb_slice.specs.Scripts.{PlaysBack};

use cdb_rules::Runs;

/// By the rules of any run, the script of the events of a valid history plays them back.
pub fn valid_histories_play_back<T: Runs>()
    ensures { (setup : Parts) → AreInRange setup → (events : List Event) →
        IsTrue ((T.rules setup).valid events) → PlaysBack (T.rules setup) setup events }
{}
