//! A session alone, whose journal is kept in a file as it goes.

ghost use Rattle.std.specs.Prelude.{◌≡◌, ◌≤◌, length};
ghost use Rattle.cdb_base.specs.Limits.{MAX_ENTRIES};
ghost use Rattle.cdb_session.specs.Greetings.{greeting_text};
ghost use Rattle.cdb_session.specs.Requests.{most_seats};
ghost use Rattle.cdb_shared_session.specs.KeptAlone.{KeepsOn, HoldsFrom, DebugsKept};

use crate::keeping::{Kept, add, keep_rest};
use cdb_base::NoMemory;
use cdb_base::limits::MAX_SEATS;
use cdb_control::{CallFault, Command, Control, Reply};
use cdb_rules::Runs;
use cdb_session::{
    Answers, Caller, Console, Inquiry, News, Style, answer_in, begin, greeting_at, run,
};
use cdb_streams::{Failed, PlayFault, Sink};
use std::alloc::Global;
use std::marker::{Model, PhantomData};

/// A control, the file in which its journal is kept, and how many entries the file has.
#[derive(Drop)]
struct KeptControl<R: Runs, A, J> {
    control: Control<R>,
    answers: PhantomData<A>,
    file: J,
    count: Result<usize, Failed>,
}

impl<R: Runs, A, J> Model for KeptControl<R, A, J> {
    ghost use Rattle.std.specs.Prelude.{◌≤◌, length, IfOk};
    ghost use Rattle.cdb_shared_session.specs.KeptAlone.{KeptView};

    ghost Value = { KeptView J };

    ghost view = { λ c. record { control = c.control; file = c.file; count = c.count } };

    ghost invariant = { λ c. IfOk c.count (λ count. count ≤ length c.control.journal) };
}

impl<R: Runs, A, J: Sink + Drop> KeptControl<R, A, J> {
    /// Adds to the file what it lacks of the journal. Where memory is out it adds nothing.
    fn keep(&mut self, alloc: Global)
        ensures control { self.new.control ≡ self.old.control }
        ensures kept { KeepsOn J.stream self.old self.new }
    {
        let Ok(count) = self.count else {
            return;
        };
        let journal = self.control.journal();
        self.count = add(alloc, &journal[count..], &mut self.file, count);
    }
}

impl<R: Runs, A: Answers<R>, J: Sink + Drop> Caller for KeptControl<R, A, J> {
    ghost use Rattle.cdb_session.specs.Alone.{whole_part, all_seats};
    ghost use Rattle.cdb_shared_session.specs.KeptAlone.{IsLaterKept};

    ghost part = { λ c. whole_part R.rules c.control };

    ghost seats = { λ c. all_seats c.control };

    ghost answers = { A.answers };

    ghost later = { IsLaterKept J.stream };

    fn call(&mut self, alloc: Global, seat: u8, command: Command) -> Result<Reply, CallFault> {
        let reply = self.control.execute(alloc, seat, command)?;
        self.keep(alloc);
        Ok(reply)
    }

    fn ask(
        &mut self,
        alloc: Global,
        inquiry: &Inquiry<'_>,
    ) -> Result<Result<Vec<u8>, Vec<u8>>, NoMemory> {
        answer_in::<R, A>(alloc, &self.control, inquiry)
    }

    fn look(&mut self, alloc: Global, _from: Option<usize>) -> Result<News, NoMemory> {
        Ok(News::none(alloc, self.control.journal().len()))
    }
}

/// A session over a control, from its first line to its last.
fn hold_kept<R: Runs, A: Answers<R>, T: Console, J: Sink + Drop>(
    alloc: Global,
    prompt: &[u8],
    control: Control<R>,
    greeting: &[u8],
    console: &mut T,
    file: J,
) -> (Result<(), PlayFault>, Kept<J>)
    requires seats { most_seats ≤ control.seats }
    requires few { length control.journal ≤ MAX_ENTRIES }
    requires greeting { greeting.now ≡ greeting_text control.setup }
    ensures { HoldsFrom J.stream R.rules A.answers prompt.now control
        (T.known console.old) (T.known console.new) file result }
{
    let style = Style {
        greeting: greeting_at(greeting, prompt),
        number: &[],
        prompt,
        first: 1,
        chooses: true,
    };
    let caller = KeptControl::<R, A, J> {
        control,
        answers: PhantomData,
        file,
        count: Ok(0),
    };
    let (caller, outcome) = run(alloc, &style, caller, console);
    let KeptControl {
        control,
        file,
        count,
        ..
    } = caller;
    let kept = keep_rest(alloc, control.journal(), file, count);
    control.close();
    (outcome, kept)
}

/// A session on a run of the setup as `debug` holds it, and beside it the journal in a file, in which nothing is: once
/// a command is carried out the file has its entry, a line with the seat and the command, before the response is
/// written; the entries that the session goes on from stand before all others.
/// Where the file can't be written, or memory is out, the session goes on; what the file lacks then is added at the
/// end. Returned are how the session ended, as of `debug`, and the file with how the journal was kept.
///
/// # Errors
/// Those of `debug`. Before the session begins the file is left as it was.
///
/// Promise: One journal explains all responses of the session, and the file has it at the end, or a beginning of it
/// where it could not be written or memory was out.
pub fn debug_kept<R: Runs, A: Answers<R>, T: Console, J: Sink + Drop>(
    alloc: Global,
    setup: &[u8],
    from: &[u8],
    prompt: &[u8],
    console: &mut T,
    file: J,
) -> (Result<(), PlayFault>, Kept<J>)
    ensures { DebugsKept J.stream R.rules A.answers prompt.now setup.now from.now
        (T.known console.old) (T.known console.new) file result }
{
    match begin::<R>(alloc, setup, from, MAX_SEATS) {
        Ok((control, greeting)) => {
            hold_kept::<R, A, T, J>(alloc, prompt, control, greeting.as_slice(), console, file)
        }
        Err(fault) => {
            let outcome = Ok(());
            (Err(fault), Kept { file, outcome })
        }
    }
}
