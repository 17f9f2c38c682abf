//! Which messages a deed names.

ghost use Rattle.cdb_deeds.specs.Laws.{NamesReceived};

/// Each message that a deed names was received before, by the process that did it.
pub fn deeds_name_received()
    ensures { NamesReceived }
{}
