//! A session on standard input and standard output.

ghost use Rattle.std.specs.Prelude.{◌≡◌};
ghost use Rattle.cdb_program.specs.Beginnings.{named};
ghost use Rattle.cdb_program.specs.Sessions.{DebugsHere, DebugsIn};

use crate::answers::Printed;
use crate::beginning::{Names, read_beginning};
use crate::fault::{Fault, of_session};
use crate::files::Files;
use crate::keeping::{Keeping, keep, outcome_of, shown_in};
use crate::world::World;
use cdb_any_run::AnyRun;
use cdb_page::Rewritten;
use cdb_session::{Console, debug};
use cdb_shared_session::{Kept, debug_kept};
use cdb_streams::{PlayFault, Sink, Source};
use std::alloc::Global;

/// Holds a session on a run of the setup of this text, which goes on from a journal, with this prompt before each line;
/// and what its journal was kept in, where it was to be.
fn hold<'a, T: Console, J: Sink + Drop, P: Rewritten + Drop>(
    alloc: Global,
    json: &[u8],
    from: &[u8],
    prompt: &[u8],
    console: &mut T,
    keeping: Option<Keeping<'a, J, P>>,
) -> (Result<(), PlayFault>, Option<Kept<Keeping<'a, J, P>>>)
    ensures { DebugsIn prompt.now json.now from.now keeping.entry (T.known console.old) (T.known console.new)
        result.0 result.1 }
{
    match keeping {
        Some(keeping) => {
            let (debugged, kept) = debug_kept::<AnyRun, Printed, _, _>(
                alloc, json, from, prompt, console, keeping,
            );
            (debugged, Some(kept))
        }
        None => (
            debug::<AnyRun, Printed, _>(alloc, json, from, prompt, console),
            None,
        ),
    }
}

/// Holds a session on a run of a setup file over standard input and standard output, with this prompt before each line.
/// It goes on from a journal, and keeps its own in a file and a page of its run in another, where these are named.
pub fn debug_here<'a, F: Files + Drop, I: Source + Drop, O: Sink + Drop, E: Sink + Drop>(
    alloc: Global,
    names: Names<'a>,
    prompt: &str,
    world: &mut World<F, I, O, E>,
) -> Result<(), Fault<'a>>
    ensures does { DebugsHere (named names.entry) prompt.now world.old world.new result }
    ensures error { world.new.error ≡ world.old.error }
{
    let (json, from) = read_beginning(alloc, &mut world.files, names.setup, names.from)?;
    let (json, from) = (json.as_slice(), from.as_slice());
    let keeping = keep(alloc, &mut world.files, names, json, from)?;
    let (debugged, kept) = hold(
        alloc,
        json,
        from,
        prompt.as_bytes(),
        &mut world.streams,
        keeping,
    );
    of_session(debugged, outcome_of(&kept), shown_in(names.page, &kept))
}
