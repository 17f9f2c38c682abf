//! The journal as text.

ghost use Rattle.std.specs.Prelude.{◌≡◌, IfOk, string_bytes};
ghost use Rattle.cdb_text.specs.Pushes.{Pushes};
ghost use Rattle.cdb_journal.specs.Journals.{entry_line, journal_text};

use cdb_base::NoMemory;
use cdb_control::Entry;
use cdb_text::{push_command, push_number};
use std::alloc::{AllocError, Global};

/// Adds the line of an entry, `S LINE`, at the end of a text. Only out of memory is an error.
fn push_entry(text: &mut String, entry: &Entry) -> Result<(), AllocError>
    ensures { Pushes result text.old text.new (entry_line entry.now) }
{
    push_number(text, u32::from(entry.seat))?;
    text.push_str(" ")?;
    push_command(text, &entry.command)?;
    text.push_str("\n")
}

/// The text of a journal: a line for each entry, with the number of its seat and its command. `NoMemory` if an
/// allocation fails.
pub fn journal_text(alloc: Global, journal: &[Entry]) -> Result<Vec<u8>, NoMemory>
    ensures { IfOk result (λ bytes. bytes.items ≡ journal_text journal.now) }
{
    let mut text = String::new(alloc);
    for entry in journal {
        push_entry(&mut text, entry)?;
    }
    Ok(text.into_bytes())
}
