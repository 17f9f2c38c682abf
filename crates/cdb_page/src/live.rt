//! A page that keeps up with a journal.

ghost use Rattle.std.specs.Prelude.{◌≡◌, ◌↔◌, ◌<◌, ◌≤◌, [], ◌++◌, length, IfErr, IfOk, IfSome, IsTrue, option_map};
ghost use Rattle.std.specs.Io.{WritesAtMost};
ghost use Rattle.cdb_agreement.specs.Algorithms.{rules};
ghost use Rattle.cdb_base.specs.Limits.{MAX_ENTRIES as most_entries, MAX_SEATS as max_seats};
ghost use Rattle.cdb_page.specs.Live.{EndsLine, HasFileTaken, IsMadeWith, KeepsUp, Shows, ShowsLines, taken_of};
ghost use Rattle.cdb_page.specs.OfJournals.{IsFaultOfJournalPage, IsPageOfJournal, IsRunOfJournal};
ghost use Rattle.cdb_rules.specs.ByRules.{IsInOrder};
ghost use Rattle.cdb_session.specs.Debugs.{IsFaultOfBeginning};
ghost use Rattle.cdb_streams.specs.Streams.{counted, is_failure};

use crate::page::page_of_few;
use crate::parts::Refresh;
use cdb_any_run::AnyRun;
use cdb_base::NoMemory;
use cdb_base::limits::MAX_SEATS;
use cdb_explain::{AnswerFault, trace_of};
use cdb_journal::MOST_JOURNAL;
use cdb_rules::Trace;
use cdb_session::begin;
use cdb_streams::{Failed, OutputFault, PlayFault, Sink};
use std::alloc::Global;
use std::marker::Model;
use std::snapshot::Snapshot;

/// A file that is written anew as a whole, again and again.
pub trait Rewritten {
    ghost use Rattle.cdb_page.specs.Live.{Rewrites, Versions};

    /// The texts that it has had, in order, where these are known, and whether the last one could not be written.
    ghost versions: { Self → Versions };

    /// Puts a text in the place of the one that the file has; who reads it finds one of the two, whole.
    ///
    /// # Errors
    /// `Write` where it can't be written, and `NoMemory` where an allocation fails: the file has what it had.
    fn rewrite(&mut self, alloc: Global, text: &[u8]) -> Result<(), OutputFault>
        ensures { Rewrites versions self.old self.new text.now result };
}

/// The run that a journal leaves on the setup of a text.
fn run_of_journal(alloc: Global, setup: &[u8], journal: &[u8]) -> Result<Trace, PlayFault>
    ensures run { IfOk result (IsRunOfJournal setup.now journal.now) }
    ensures valid { IfOk result (IsInOrder rules) }
    ensures few { IfOk result (λ run. length run.history ≤ most_entries) }
    ensures fault { IfErr result (IsFaultOfBeginning setup.now journal.now max_seats) }
{
    let (control, _) = begin::<AnyRun>(alloc, setup, journal, MAX_SEATS)?;
    let run = trace_of(alloc, control)?;
    Ok(run)
}

/// The page of the run that a journal leaves on the setup of a text.
///
/// # Errors
/// `TooManyEvents` where that has more than 5,000 events; `Play` where there is no such run, as of `begin`, and where
/// an allocation fails.
fn page_of_journal(alloc: Global, setup: &[u8], journal: &[u8]) -> Result<Vec<u8>, AnswerFault>
    ensures page { IfOk result (λ page. IsPageOfJournal setup.now journal.now page.items) }
    ensures fault { IfErr result (IsFaultOfJournalPage setup.now journal.now) }
{
    let run = run_of_journal(alloc, setup, journal)?;
    page_of_few(alloc, &run, Refresh::EachTwoSeconds)
}

/// Puts that page in the place of what the file has.
///
/// # Errors
/// Those of `page_of_journal`, and `Play(Write)` where the file can't be written: it has what it had.
fn show<P: Rewritten>(
    alloc: Global,
    setup: &[u8],
    journal: &[u8],
    file: &mut P,
) -> Result<(), AnswerFault>
    ensures { Shows setup.now journal.now (P.versions file.old) (P.versions file.new) result }
{
    let page = page_of_journal(alloc, setup, journal)?;
    file.rewrite(alloc, page.as_slice())?;
    Ok(())
}

/// Whether the last byte of a text ends a line.
fn ends_line(text: &[u8]) -> bool
    ensures { IsTrue result ↔ EndsLine text.now }
{
    match text.split_last() {
        Some((byte, _)) => *byte == b'\n',
        None => false,
    }
}

/// A page that keeps up with a journal: what the journal of sessions is written to, as they go on. With each entry the
/// file of the page is written anew, with the page of the run that the journal then leaves; a file of the journal,
/// where it has one, is written to first. Where the page can't be made or written it stays as it was, the journal is
/// kept all the same, and the next entry tries again.
#[derive(Drop)]
pub struct LivePage<'a, J: Sink + Drop, P: Rewritten + Drop> {
    alloc: Global,
    setup: &'a [u8],
    from: &'a [u8],
    taken: Vec<u8>,
    failures: u64,
    journal_before: Snapshot<Option<J>>,
    journal: Option<J>,
    page: P,
    outcome: Result<(), AnswerFault>,
}

impl<'a, J: Sink + Drop, P: Rewritten + Drop> Model for LivePage<'a, J, P> {
    ghost use Rattle.std.specs.Prelude.{option_map};
    ghost use Rattle.cdb_page.specs.Live.{Live, KeepsUp};

    ghost Value = { Live };

    ghost view = { λ it. record {
      json = it.setup.now;
      from = it.from.now;
      taken = it.taken.items;
      failures = it.failures;
      journal_before = option_map J.stream it.journal_before.value;
      journal = option_map J.stream it.journal;
      versions = P.versions it.page;
      outcome = it.outcome;
    } };

    ghost invariant = { λ it. KeepsUp (record {
      json = it.setup.now;
      from = it.from.now;
      taken = it.taken.items;
      failures = it.failures;
      journal_before = option_map J.stream it.journal_before.value;
      journal = option_map J.stream it.journal;
      versions = P.versions it.page;
      outcome = it.outcome;
    }) };
}

impl<'a, J: Sink + Drop, P: Rewritten + Drop> LivePage<'a, J, P> {
    /// A page of the run of a setup, which goes on from a journal, in a file that has had no text; and the file of the
    /// new journal, where there is one. The page of the journal from which it goes on is written at once, and room is
    /// made for the longest journal.
    ///
    /// # Errors
    /// `NoMemory` where there is no such room; the files are as they were.
    pub fn begin(
        alloc: Global,
        setup: &'a [u8],
        from: &'a [u8],
        journal: Option<J>,
        mut page: P,
    ) -> Result<Self, NoMemory>
        requires { IfSome (P.versions page).texts (λ texts. texts ≡ []) }
        ensures made { IfOk result (IsMadeWith (option_map J.stream journal) setup.now from.now) }
        ensures empty { IfOk result (λ it. it.taken ≡ []) }
    {
        let taken = Vec::with_capacity(alloc, MOST_JOURNAL)?;
        let outcome = show(alloc, setup, from, &mut page);
        Ok(LivePage {
            alloc,
            setup,
            from,
            taken,
            failures: 0,
            journal_before: Snapshot::of(&journal),
            journal,
            page,
            outcome,
        })
    }

    /// How the last writing of the page ended: the page is that of all that was taken, or this is why it is not.
    ///
    /// Promise: Each text that the file of a live page has had is a whole page, of the run that the first lines of the
    /// journal leave, and where nothing failed the last one is that of all that was taken. The file of the journal took
    /// the same, behind what it held.
    pub fn outcome(&self) -> Result<(), AnswerFault>
        ensures is { result ≡ self.now.outcome }
        ensures keeps_up { KeepsUp self.now }
    {
        self.outcome
    }
}

/// Takes a beginning of a piece: as much of it as the file takes, where there is one.
fn pass_on<J: Sink>(piece: &[u8], file: &mut Option<J>) -> Result<usize, Failed>
    ensures within { WritesAtMost result piece.now }
    ensures file { HasFileTaken (option_map J.stream file.old) (option_map J.stream file.new)
        (taken_of result piece.now) }
{
    match file {
        Some(file) => file.write(piece),
        None => Ok(piece.len()),
    }
}

/// Takes a beginning of a piece, as much of it as the file takes, where there is one; the file of the journal comes
/// first, and memory before it.
fn take<J: Sink>(piece: &[u8], taken: &mut Vec<u8>, file: &mut Option<J>) -> Result<usize, Failed>
    ensures within { WritesAtMost result piece.now }
    ensures file { HasFileTaken (option_map J.stream file.old) (option_map J.stream file.new)
        (taken_of result piece.now) }
    ensures taken { taken.new.items ≡ taken.old.items ++ taken_of result piece.now }
{
    let before = taken.len();
    if taken.extend_from_slice(piece).is_err() {
        return Err(Failed);
    }
    let written = pass_on(piece, file);
    taken.truncate(before + written.unwrap_or(0));
    written
}

/// Whether a call failed that returned this for a piece.
fn has_failed(written: Result<usize, Failed>, piece: &[u8]) -> bool
    ensures { result ≡ is_failure written piece.now }
{
    match written {
        Ok(count) => count == 0 && !piece.is_empty(),
        Err(Failed) => true,
    }
}

/// How many calls have failed after one of which this says whether it did, in 64 bits.
fn failures_after(failures: u64, failed: bool) -> u64
    ensures { result ≡ counted failed failures }
{
    if failed {
        failures.wrapping_add(1)
    } else {
        failures
    }
}

/// Puts the page of the run that a journal leaves in the place of what the file has.
///
/// # Errors
/// `Play(Write)` where the last line is not whole, as the rest of it is to come; else those of `show`.
fn show_lines<P: Rewritten>(
    alloc: Global,
    setup: &[u8],
    journal: &[u8],
    file: &mut P,
) -> Result<(), AnswerFault>
    requires { 0 < length journal.now }
    ensures { ShowsLines setup.now journal.now (P.versions file.old) (P.versions file.new) result }
{
    if !ends_line(journal) {
        return Err(AnswerFault::Play(PlayFault::Write));
    }
    show(alloc, setup, journal, file)
}

impl<'a, J: Sink + Drop, P: Rewritten + Drop> Sink for LivePage<'a, J, P> {
    ghost use Rattle.cdb_page.specs.Live.{stream_of};

    ghost stream = { stream_of };

    fn write(&mut self, piece: &[u8]) -> Result<usize, Failed> {
        let written = take(piece, &mut self.taken, &mut self.journal);
        self.failures = failures_after(self.failures, has_failed(written, piece));
        if written.unwrap_or(0) > 0 {
            self.outcome = show_lines(
                self.alloc,
                self.setup,
                self.taken.as_slice(),
                &mut self.page,
            );
        }
        written
    }
}
