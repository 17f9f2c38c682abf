//! The entries of a text.

ghost use Rattle.std.specs.Prelude.{◌≡◌, ◌+◌, ◌≤◌, ◌∷◌, [], ◌++◌, length, vec_len, vec_capacity};
ghost use Rattle.std.specs.Prelude.{◌<◌, Err, IfOk, IfErr, MatchBool};
ghost use Rattle.cdb_base.specs.Limits.{MAX_ENTRIES};
ghost use Rattle.cdb_control.specs.Journal.{entry};
ghost use Rattle.cdb_streams.specs.Lines.{lines_of};
ghost use Rattle.cdb_streams.specs.Streams.{FailsWhere};
ghost use Rattle.cdb_journal.specs.Journals.{AreEntriesOf, IsTooLong, IsFaultOfJournal};
ghost use Rattle.cdb_journal.specs.Journals.{IsJournal, GivesEntries, IsFaultOfReading};

use cdb_base::limits::MAX_ENTRIES;
use cdb_base::{Act, Reg};
use cdb_control::{Command, Entry, Stop, View};
use cdb_streams::{PlayFault, ScriptFault, Source, first_line, read_up_to};
use cdb_text::parse_entry;
use std::alloc::Global;

/// How many bytes the longest line of an entry has, which is `64 rollback lost 999999 999999 999999` and the byte 10 at
/// its end.
const LONGEST_LINE: usize = 38;

/// The most bytes that a journal may have: as many as the longest lines of the most entries.
pub const MOST_JOURNAL: usize = LONGEST_LINE * MAX_ENTRIES as usize;

/// How many lines a text has.
fn count_lines(text: &[u8]) -> usize
    ensures { result ≡ length (lines_of text.now) }
{
    let mut count = 0;
    let mut rest = text;
    while !rest.is_empty() {
        let (_, behind) = first_line(rest);
        count += 1;
        rest = behind;
    }
    count
}

/// Whether a text has more bytes or more lines than a journal may have.
fn is_too_long(text: &[u8]) -> bool
    ensures { MatchBool result (IsTooLong text.now) (¬ IsTooLong text.now) }
{
    text.len() > MOST_JOURNAL || count_lines(text) > MAX_ENTRIES as usize
}

/// Adds an entry where there is room for it.
fn push_entry(entries: &mut Vec<Entry>, seat: u8, command: Command)
    requires { vec_len entries.old < vec_capacity entries.old }
    ensures items { entries.new.items ≡ entries.old.items ++ entry seat command ∷ [] }
    ensures len { vec_len entries.new ≡ vec_len entries.old + 1 }
    ensures capacity { vec_capacity entries.new ≡ vec_capacity entries.old }
{
    // Names each type inside a command: the checker asks for that where an entry is passed for a type parameter.
    let _parts: (Option<Stop>, Option<Act>, Option<View>, Option<Reg>) = (None, None, None, None);
    entries.push_reserved(Entry { seat, command });
}

/// The entries of the lines of a text, in their order, each `S LINE`. Where a line is no entry, the first such line is
/// named with its first fault. A text that is too long for a journal is refused as such, and never as out of memory.
pub fn entries_of(alloc: Global, text: &[u8]) -> Result<Vec<Entry>, ScriptFault>
    ensures entries { IfOk result (λ entries. IsJournal entries.items text.now) }
    ensures fault { IfErr result (λ fault. IsFaultOfJournal fault text.now) }
{
    if is_too_long(text) {
        return Err(ScriptFault::TooLong);
    }
    let mut entries = Vec::with_capacity(alloc, count_lines(text))?;
    let mut rest = text;
    while !rest.is_empty() {
        let (line, behind) = first_line(rest);
        match parse_entry(line) {
            Ok((seat, command)) => push_entry(&mut entries, seat, command),
            Err(fault) => return Err(ScriptFault::Line(entries.len() + 1, fault)),
        }
        rest = behind;
    }
    Ok(entries)
}

/// Reads a journal to its end, and returns its entries. The bytes are kept no longer.
pub fn read_entries<R: Source>(alloc: Global, journal: &mut R) -> Result<Vec<Entry>, PlayFault>
    ensures entries { IfOk result (λ entries. GivesEntries
        (R.stream journal.old) (R.stream journal.new) entries.items) }
    ensures fault { IfErr result (IsFaultOfReading (R.stream journal.old) (R.stream journal.new)) }
    ensures read { FailsWhere R.stream (result ≡ Err PlayFault.Read) journal.old journal.new }
{
    let bytes = read_up_to(alloc, journal, MOST_JOURNAL + 1)?;
    let entries = entries_of(alloc, bytes.as_slice())?;
    Ok(entries)
}
