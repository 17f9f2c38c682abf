//! Laws of the grammar.

ghost use Rattle.cdb_text.specs.Entries.{EachEntryHasOneLine};
ghost use Rattle.cdb_text.specs.Laws.{EachCommandHasOneLine};

/// Each command whose numbers are in range has exactly one line, the printed one, and any other command has
/// none. So `parse_line` returns a printed command, and takes no other line for it.
pub fn each_command_has_one_line()
    ensures { EachCommandHasOneLine }
{}

/// Each command of a seat from 1 to 64 whose numbers are in range has exactly one line in a journal, the number of the
/// seat, a space and the printed command; any other has none. So `parse_entry` returns what was written, and takes no
/// other line for it.
pub fn each_entry_has_one_line()
    ensures { EachEntryHasOneLine }
{}
