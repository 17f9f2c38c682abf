//! What the journal of sessions is kept in.

ghost use Rattle.std.specs.Prelude.{◌≡◌, [], ◌∷◌, option_map};
ghost use Rattle.cdb_base.specs.Requests.{any_text};
ghost use Rattle.cdb_page.specs.Live.{IsMadeWith};
ghost use Rattle.cdb_program.specs.Beginnings.{made_names, named};
ghost use Rattle.cdb_program.specs.FilesRead.{OpensAll};
ghost use Rattle.cdb_program.specs.Keepings.{IsEndOf, IsNewFile, IsNewKeeping, IsShown};
ghost use Rattle.cdb_program.specs.Known.{any_name};
ghost use Rattle.cdb_shared_session.specs.KeptOutcomes.{kept_outcome};

use crate::beginning::Names;
use crate::fault::Fault;
use crate::files::Files;
use cdb_explain::AnswerFault;
use cdb_page::{LivePage, Rewritten};
use cdb_shared_session::Kept;
use cdb_streams::{Failed, OutputFault, PlayFault, Sink};
use std::alloc::Global;
use std::marker::Model;

/// A file, or a page.
#[derive(Drop)]
enum Kind<'a, J: Sink + Drop, P: Rewritten + Drop> {
    File(J),
    Page(LivePage<'a, J, P>),
}

/// What the journal of sessions is kept in: a file, or a page of their run as it goes on, which may have such a file.
#[derive(Drop)]
pub struct Keeping<'a, J: Sink + Drop, P: Rewritten + Drop> {
    kind: Kind<'a, J, P>,
}

impl<'a, J: Sink + Drop, P: Rewritten + Drop> Model for Keeping<'a, J, P> {
    ghost use Rattle.cdb_program.specs.Keepings.{Keeping as KeepingSeen, keeping_of};

    ghost Value = { KeepingSeen };

    ghost view = { λ it. keeping_of J.stream it.kind };
}

impl<'a, J: Sink + Drop, P: Rewritten + Drop> Sink for Keeping<'a, J, P> {
    ghost use Rattle.cdb_program.specs.Keepings.{stream_in};

    ghost stream = { stream_in };

    fn write(&mut self, piece: &[u8]) -> Result<usize, Failed> {
        match &mut self.kind {
            Kind::File(file) => file.write(piece),
            Kind::Page(page) => page.write(piece),
        }
    }
}

impl<'a, J: Sink + Drop, P: Rewritten + Drop> Keeping<'a, J, P> {
    /// How the last writing of the page ended, where it is one.
    fn outcome(&self) -> Result<(), AnswerFault>
        ensures { IsEndOf self.now result }
    {
        match &self.kind {
            Kind::File(_) => Ok(()),
            Kind::Page(page) => page.outcome(),
        }
    }
}

/// How the journal was kept, where it was to be.
pub fn outcome_of<J>(kept: &Option<Kept<J>>) -> Result<(), OutputFault>
    ensures { result ≡ kept_outcome kept.now }
{
    match kept {
        Some(kept) => kept.outcome,
        None => Ok(()),
    }
}

/// How the last writing of the page ended, where one was named.
pub fn shown_in<'a, J: Sink + Drop, P: Rewritten + Drop>(
    page: Option<&str>,
    kept: &Option<Kept<Keeping<'a, J, P>>>,
) -> Result<(), AnswerFault>
    ensures { IsShown (any_text page.entry) kept.now result }
{
    match (page, kept) {
        (Some(_), Some(kept)) => kept.file.outcome(),
        _ => Ok(()),
    }
}

/// The file of this name, in which there is nothing; none where there is no name.
///
/// # Errors
/// `Play(Read, name)` where it has something in it or can't be opened, and `Play(NoMemory, name)` where an allocation
/// fails.
fn make_any<'a, F: Files>(
    alloc: Global,
    files: &mut F,
    name: Option<&'a str>,
) -> Result<Option<F::Made>, Fault<'a>>
    ensures { OpensAll (λ made. IsNewFile (any_text name.entry) (option_map F.Made.stream made))
        (F.seen files.old) (F.seen files.new) (any_name (any_text name.entry)) result }
{
    match name {
        Some(given) => match files.make_file(alloc, given) {
            Ok(file) => Ok(Some(file)),
            Err(fault) => Err(Fault::Play(PlayFault::from(fault), given)),
        },
        None => Ok(None),
    }
}

/// A page of a run of the setup of this text, which goes on from a journal, in the file of this name; and with the file
/// of the new journal, where there is one.
///
/// # Errors
/// As of `make_any`.
fn begin_page<'a, 'b, F: Files>(
    alloc: Global,
    files: &mut F,
    json: &'b [u8],
    from: &'b [u8],
    journal: Option<F::Made>,
    name: &'a str,
) -> Result<LivePage<'b, F::Made, F::Page>, Fault<'a>>
    ensures { OpensAll
        (λ it. IsMadeWith (option_map F.Made.stream journal) json.entry.now from.entry.now it × (it.taken ≡ []))
        (F.seen files.old) (F.seen files.new) (name.entry.now ∷ []) result }
{
    match files.make_page(alloc, name) {
        Ok(file) => match LivePage::begin(alloc, json, from, journal, file) {
            Ok(page) => Ok(page),
            Err(refused) => Err(Fault::Play(PlayFault::NoMemory(refused), name)),
        },
        Err(fault) => Err(Fault::Play(PlayFault::from(fault), name)),
    }
}

/// What the journal of a run of the setup of this text, which goes on from a journal, is kept in, if in anything.
///
/// # Errors
/// `Play(Read, name)` with the name of the first file that is refused; the one after it is not opened. `Play(NoMemory,
/// _)` where an allocation fails.
pub fn keep<'a, 'b, F: Files>(
    alloc: Global,
    files: &mut F,
    names: Names<'a>,
    json: &'b [u8],
    from: &'b [u8],
) -> Result<Option<Keeping<'b, F::Made, F::Page>>, Fault<'a>>
    ensures { OpensAll (IsNewKeeping (named names.entry) json.entry.now from.entry.now)
        (F.seen files.old) (F.seen files.new) (made_names (named names.entry)) result }
{
    let journal = make_any(alloc, files, names.journal)?;
    match (names.page, journal) {
        (Some(name), journal) => {
            let kind = Kind::Page(begin_page(alloc, files, json, from, journal, name)?);
            Ok(Some(Keeping { kind }))
        }
        (None, Some(file)) => {
            let kind = Kind::File(file);
            Ok(Some(Keeping { kind }))
        }
        (None, None) => Ok(None),
    }
}
