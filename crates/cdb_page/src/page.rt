//! The page of a run as a text in memory.

ghost use Rattle.std.specs.Prelude.{◌≡◌, ◌≤◌, ◌++◌, length, IfErr, IfOk};
ghost use Rattle.cdb_agreement.specs.Algorithms.{rules};
ghost use Rattle.cdb_base.specs.Limits.{MAX_ENTRIES as most_entries};
ghost use Rattle.cdb_draw.specs.Drawn.{IsCrowded};
ghost use Rattle.cdb_explain.specs.TextFaults.{IsFaultOfText};
ghost use Rattle.cdb_page.specs.Pages.{IsPage, IsPageOfFew, refresh_text};
ghost use Rattle.cdb_page.specs.declared.parts.TheConstants.{CONTROLS as controls, HEAD as head};
ghost use Rattle.cdb_page.specs.declared.parts.TheConstants.{LOOKS as looks, SCRIPT as script};
ghost use Rattle.cdb_rules.specs.ByRules.{IsInOrder};

use crate::entries::entries_of;
use crate::parts::{CONTROLS, HEAD, LOOKS, Refresh, SCRIPT, refresh_line};
use crate::text::text_of_entries;
use cdb_base::NoMemory;
use cdb_base::limits::COLUMNS;
use cdb_draw::{MOST_DRAWN, picture_of};
use cdb_explain::AnswerFault;
use cdb_rules::Trace;
use std::alloc::Global;

/// The fixed parts with a picture and entries between them.
fn joined(
    alloc: Global,
    refresh: Refresh,
    picture: &[u8],
    entries: &[u8],
) -> Result<Vec<u8>, NoMemory>
    ensures { IfOk result (λ text. text.items
        ≡ head.now ++ refresh_text refresh ++ looks.now ++ picture.now ++ controls.now ++ entries.now
        ++ script.now) }
{
    let mut text = Vec::new(alloc);
    text.extend_from_slice(HEAD.as_bytes())?;
    text.extend_from_slice(refresh_line(refresh).as_bytes())?;
    text.extend_from_slice(LOOKS.as_bytes())?;
    text.extend_from_slice(picture)?;
    text.extend_from_slice(CONTROLS.as_bytes())?;
    text.extend_from_slice(entries)?;
    text.extend_from_slice(SCRIPT.as_bytes())?;
    Ok(text)
}

/// The page of a run of at most 999,999 events. Only out of memory is an error.
fn page_of(alloc: Global, run: &Trace, refresh: Refresh) -> Result<Vec<u8>, NoMemory>
    requires valid { IsInOrder rules run.now }
    requires few { length run.now.history ≤ most_entries }
    ensures { IfOk result (λ text. IsPage refresh run.now text.items) }
{
    let picture = picture_of(alloc, run, COLUMNS, None)?;
    let entries = entries_of(alloc, run)?;
    let text = text_of_entries(alloc, entries.as_slice())?;
    joined(alloc, refresh, picture.as_slice(), text.as_slice())
}

/// The page of a run of at most 999,999 events: a document that a browser opens from where it lies, which loads
/// nothing. It has the picture of the run, as `draw` draws it, and of each event, for its script, the direct causes,
/// the events of which it is one, the first event that needs it, and from where its value came.
///
/// # Errors
/// `TooManyEvents` where it has more than 5,000 events, and `NoMemory` where an allocation fails.
///
/// Promise: A page has the picture of the run, and an entry for each event, in the order of the history: exactly its
/// direct causes and those of which it is one, in order, the first event that depends on it, for which undo is refused,
/// and the step or the input from which its value came. Followed, these lead to exactly its past, its consequences and
/// its trail (`laws`). What its script shows of them is tested in a browser. `TooManyEvents` comes only of a run with
/// more than are drawn.
pub fn page_of_few(alloc: Global, run: &Trace, refresh: Refresh) -> Result<Vec<u8>, AnswerFault>
    requires valid { IsInOrder rules run.now }
    requires few { length run.now.history ≤ most_entries }
    ensures page { IfOk result (λ text. IsPageOfFew refresh run.now text.items) }
    ensures fault { IfErr result (IsFaultOfText ⊥ ⊥ (IsCrowded run.now)) }
{
    if run.events().len() > MOST_DRAWN {
        return Err(AnswerFault::TooManyEvents);
    }
    let text = page_of(alloc, run, refresh)?;
    Ok(text)
}
