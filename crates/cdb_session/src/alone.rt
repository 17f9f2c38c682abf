//! A session over a control of its own, at a prompt or behind a pipe.

ghost use Rattle.std.specs.Prelude.{◌≤◌, IfOk, IfErr};
ghost use Rattle.cdb_base.specs.Limits.{MAX_SEATS};
ghost use Rattle.cdb_session.specs.Debugs.{Debugs, IsBegun, IsFaultOfBeginning};

use crate::answers::{Answers, answer_in};
use crate::caller::{Caller, News};
use crate::console::Console;
use crate::greeting::{greeting_at, greeting_text};
use crate::inquiry::Inquiry;
use crate::repl::run;
use crate::style::Style;
use cdb_base::NoMemory;
use cdb_base::limits::MAX_SEATS;
use cdb_control::{CallFault, Command, Control, Reply};
use cdb_journal::open_from;
use cdb_rules::Runs;
use cdb_setup::Setup;
use cdb_streams::PlayFault;
use std::alloc::Global;
use std::marker::{Model, PhantomData};

/// A control of a session's own, and who answers what is asked of its run.
#[derive(Drop)]
struct OwnControl<R: Runs, A> {
    control: Control<R>,
    answers: PhantomData<A>,
}

impl<R: Runs, A> Model for OwnControl<R, A> {
    ghost use Rattle.cdb_control.specs.Journal.{Journaled};

    ghost Value = { Journaled };

    ghost view = { λ own. own.control };
}

impl<R: Runs, A: Answers<R>> Caller for OwnControl<R, A> {
    ghost use Rattle.cdb_session.specs.Alone.{whole_part, all_seats, IsLaterControl};

    ghost part = { λ c. whole_part R.rules c };

    ghost seats = { all_seats };

    ghost answers = { A.answers };

    ghost later = { IsLaterControl };

    #[tactic(auto, using(crate::proofs::OwnControl::calls_made))]
    fn call(&mut self, alloc: Global, seat: u8, command: Command) -> Result<Reply, CallFault> {
        self.control.execute(alloc, seat, command)
    }

    fn ask(
        &mut self,
        alloc: Global,
        inquiry: &Inquiry<'_>,
    ) -> Result<Result<Vec<u8>, Vec<u8>>, NoMemory> {
        answer_in::<R, A>(alloc, &self.control, inquiry)
    }

    fn look(&mut self, alloc: Global, _from: Option<usize>) -> Result<News, NoMemory> {
        Ok(News::none(alloc, self.control.journal().len()))
    }
}

/// A control of the setup of this text with 1 to 64 seats, which goes on from a journal, and the setup in words.
///
/// # Errors
/// `Setup` with the setup's first fault; else `Line` and `ScriptTooLong`, as of script 1, where the journal is none,
/// and `Line` with the fault Number for its first line of a seat beyond the last. `NoMemory` where an allocation fails.
#[tactic(auto, using(crate::proofs::FromSetup::journal_failed, crate::proofs::FromSetup::setup_failed))]
pub fn begin<R: Runs>(
    alloc: Global,
    setup: &[u8],
    from: &[u8],
    seats: u8,
) -> Result<(Control<R>, Vec<u8>), PlayFault>
    requires from_one { 1 ≤ seats }
    requires to_last { seats ≤ MAX_SEATS }
    ensures begun { IfOk result
        (λ begun. IsBegun setup.now from.now seats begun.0 begun.1.items) }
    ensures fault { IfErr result (IsFaultOfBeginning setup.now from.now seats) }
{
    let setup = Setup::read(alloc, setup)?;
    let greeting = greeting_text(alloc, &setup)?;
    let control = open_from::<R>(alloc, setup, seats, from)?;
    Ok((control, greeting))
}

/// A session on a run of the setup, which goes on from a journal of whichever seats; one without bytes has no entries.
/// Each line has its response before more input is asked for: a command of the seat that the session is at,
/// `auto P N`, which is `auto P` N times, N from 1 to 999,999, or until it is refused or the journal is full,
/// `explain P [K]`, `trail P [K]` and `draw FILE [P [K]]`, which ask something of the run and make no entry, `watch`
/// and `unwatch`, of which there are no news since nobody else has a seat, `help`, `seat S`, or `quit`, which ends it;
/// a line that is none of these has its fault. A picture is written to a new file. The prompt is shown before each
/// line, and the setup in words before the first prompt; where the prompt has no bytes, neither is. The end of the
/// input, which is asked for once, ends the session too, and so do 2^63 bytes.
///
/// # Errors
/// Those of `begin`, with 64 seats, before any input is asked for. `Read` where the reading failed: each line is
/// responded to. `Write` where the writing failed: what was written is a beginning of the responses. `NoMemory` where
/// an allocation fails: what was written are the responses to a beginning of the lines.
///
/// Promise: Whenever a session asks for more input, all lines that it was given so far have their responses in full,
/// none of them was `quit`, and the input was not at its end. At the end it has written exactly the dialogue of all
/// that was read, and has ended at `quit`, at the end of the input, which is asked for once, or after 2^63 bytes. What
/// a line asks of the run is answered of the one that the commands before it have led to. A picture is in its file
/// before that is said, and nothing else is written to a file. A line that repeats a command gives it as often as it
/// says, or until it is refused or the journal is full, and its response is the texts of all replies. After a failed
/// read each line that had ended has its response; after a failed write what was written is a beginning of the
/// responses; after out of memory it is the responses to the first of the lines.
pub fn debug<R: Runs, A: Answers<R>, T: Console>(
    alloc: Global,
    setup: &[u8],
    from: &[u8],
    prompt: &[u8],
    console: &mut T,
) -> Result<(), PlayFault>
    ensures { Debugs R.rules A.answers prompt.now setup.now from.now result
        (T.known console.old) (T.known console.new) }
{
    let begun = begin::<R>(alloc, setup, from, MAX_SEATS)?;
    let (control, greeting) = begun;
    let style = Style {
        greeting: greeting_at(greeting.as_slice(), prompt),
        number: &[],
        prompt,
        first: 1,
        chooses: true,
    };
    let own = OwnControl::<R, A> {
        control,
        answers: PhantomData,
    };
    let (own, outcome) = run(alloc, &style, own, console);
    let OwnControl { control, .. } = own;
    control.close();
    outcome
}
