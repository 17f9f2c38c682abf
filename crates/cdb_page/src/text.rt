//! The entries of a page as text.

ghost use Rattle.std.specs.Prelude.{◌≡◌, ◌++◌, codes, decimal, IfOk};
ghost use Rattle.cdb_page.specs.Pages.{entries_text, entry_text, from_of, input_of};
ghost use Rattle.cdb_page.specs.Pages.{listed_text, positions_text, sources_text};
ghost use Rattle.cdb_text.specs.Pushes.{Pushes};

use crate::entries::Entry;
use cdb_base::NoMemory;
use cdb_trail::Origin;
use std::alloc::{AllocError, Global};

/// Adds a position, with a comma behind it.
fn push_position(text: &mut String, position: usize) -> Result<(), AllocError>
    ensures { Pushes result text.old text.new (decimal position ++ codes ",") }
{
    write!(text, "{position},")
}

/// Adds positions, each with a comma behind it.
fn push_positions(text: &mut String, positions: &[usize]) -> Result<(), AllocError>
    ensures { Pushes result text.old text.new (positions_text positions.now) }
{
    for position in positions {
        push_position(text, *position)?;
    }
    Ok(())
}

/// The step from which a value came, if it came from one.
fn from_of(origin: &Option<Origin>) -> usize
    ensures { result ≡ from_of origin.now }
{
    match origin {
        Some(Origin::Step(i)) => *i,
        _ => 0,
    }
}

/// The process whose input it is, if it is one.
fn input_of(origin: &Option<Origin>) -> u8
    ensures { result ≡ input_of origin.now }
{
    match origin {
        Some(Origin::Input(q)) => q.number(),
        _ => 0,
    }
}

/// Adds positions, behind what they are.
fn push_listed(text: &mut String, label: &str, positions: &[usize]) -> Result<(), AllocError>
    ensures { Pushes result text.old text.new (listed_text label.now positions.now) }
{
    text.push_str(label)?;
    push_positions(text, positions)?;
    text.push_str("],")
}

/// Adds which event needs the one of the entry first, and from where its value came.
fn push_sources(text: &mut String, entry: &Entry) -> Result<(), AllocError>
    ensures { Pushes result text.old text.new (sources_text entry.now) }
{
    let needed = entry.needed.unwrap_or(0);
    let (from, input) = (from_of(&entry.origin), input_of(&entry.origin));
    write!(text, "needed:{needed},from:{from},input:{input}")
}

/// Adds an entry.
fn push_entry(text: &mut String, entry: &Entry) -> Result<(), AllocError>
    ensures { Pushes result text.old text.new (entry_text entry.now) }
{
    push_listed(text, "{causes:[", entry.causes.as_slice())?;
    push_listed(text, "dependents:[", entry.dependents.as_slice())?;
    push_sources(text, entry)?;
    text.push_str("},\n")
}

/// Adds entries, one a line.
fn push_entries(text: &mut String, entries: &[Entry]) -> Result<(), AllocError>
    ensures { Pushes result text.old text.new (entries_text entries.now) }
{
    for entry in entries {
        push_entry(text, entry)?;
    }
    Ok(())
}

/// The text of entries.
pub(crate) fn text_of_entries(alloc: Global, entries: &[Entry]) -> Result<Vec<u8>, NoMemory>
    ensures { IfOk result (λ text. text.items ≡ entries_text entries.now) }
{
    let mut text = String::new(alloc);
    push_entries(&mut text, entries)?;
    Ok(text.into_bytes())
}
