//! What one thread does with its seat.

ghost use Rattle.std.specs.Prelude.{◌≡◌, ◌≤◌, ℕ, decimal, false};
ghost use Rattle.cdb_base.specs.Limits.{MAX_SEATS};
ghost use Rattle.cdb_shared.specs.Seats.{IsLater, RestsAt};
ghost use Rattle.cdb_shared_session.specs.Promises.{IsUnused, RunsSeat, HasRun};
ghost use Rattle.cdb_shared_session.specs.SeatParts.{number_at};

use crate::endpoint::{Endpoint, Finished, Opener};
use crate::replica::{news_for, replica_of};
use cdb_base::NoMemory;
use cdb_base::limits::MAX_ENTRIES;
use cdb_control::{CallFault, Command, Control, Reply};
use cdb_rules::Runs;
use cdb_session::{Answers, Caller, Console, Inquiry, News, Style, answer_of, greeting_at, run};
use cdb_setup::Setup;
use cdb_shared::{Seat, Shared};
use cdb_streams::PlayFault;
use itoa::Buffer;
use std::alloc::Global;
use std::marker::{Model, PhantomData};
use std::snapshot::Snapshot;
use std::sync::Wait;
use std::thread::Promise;

/// Carries the commands of one seat out, in the turns that it shares with others.
#[derive(Drop)]
pub(crate) struct SeatCaller<'a, R: Runs, A, Rt> {
    shared: &'a Shared<R>,
    rt: &'a Rt,
    setup: &'a Setup,
    seats: u8,
    seat: Seat<R>,
    replica: Option<Control<R>>,
    answers: PhantomData<A>,
}

impl<'a, R: Runs, A, Rt> Model for SeatCaller<'a, R, A, Rt> {
    ghost use Rattle.std.specs.Prelude.{◌≡◌, ◌≤◌};
    ghost use Rattle.cdb_base.specs.Limits.{MAX_SEATS};
    ghost use Rattle.cdb_shared.specs.Seats.{SeatView, RestsAt};
    ghost use Rattle.cdb_shared_session.specs.Replicas.{HasReplica};

    ghost Value = { SeatView };

    ghost view = { λ s. s.seat };

    ghost invariant = { λ s. RestsAt s.shared.now s.seat × (s.setup.now ≡ s.seat.setup)
        × (s.seats ≡ s.seat.seats) × (1 ≤ s.seats) × (s.seats ≤ MAX_SEATS)
        × HasReplica s.seat s.replica };
}

impl<'a, R: Runs, A: Answers<R>, Rt: Wait> Caller for SeatCaller<'a, R, A, Rt> {
    ghost use Rattle.cdb_shared.specs.Seats.{IsLater};
    ghost use Rattle.cdb_shared_session.specs.SeatParts.{part_seen, own_seat};

    ghost part = { λ seat. part_seen R.rules seat };

    ghost seats = { own_seat };

    ghost answers = { A.answers };

    ghost later = { IsLater };

    #[tactic(auto, using(crate::proofs::SeatCalls::calls_made))]
    fn call(&mut self, alloc: Global, _seat: u8, command: Command) -> Result<Reply, CallFault> {
        self.shared.call(self.rt, alloc, &mut self.seat, command)
    }

    #[tactic(auto, using(crate::proofs::Replicas::has_later, crate::proofs::SeatCalls::asked_now))]
    fn ask(
        &mut self,
        alloc: Global,
        inquiry: &Inquiry<'_>,
    ) -> Result<Result<Vec<u8>, Vec<u8>>, NoMemory> {
        let journal = self.shared.journal(self.rt, alloc, &mut self.seat, 0)?;
        answer_of::<R, A>(alloc, self.setup, self.seats, journal.as_slice(), inquiry)
    }

    fn look(&mut self, alloc: Global, from: Option<usize>) -> Result<News, NoMemory> {
        let replica = replica_of::<R>(
            alloc,
            self.setup,
            self.seats,
            self.replica.take(),
            from.unwrap_or(MAX_ENTRIES as usize),
        )?;
        let (shared, seat) = (self.shared, &mut self.seat);
        let (replica, news) = news_for(shared, self.rt, alloc, seat, replica, from)?;
        self.replica = Some(replica);
        Ok(news)
    }
}

/// What each seat is welcomed with: the setup and its words, and how many seats there are.
#[derive(Clone, Copy)]
pub(crate) struct Welcome<'a> {
    pub(crate) setup: &'a Setup,
    pub(crate) greeting: &'a [u8],
    pub(crate) seats: u8,
}

/// A seat whose thread has ended.
#[derive(Drop)]
pub(crate) struct SeatResult<R: Runs, T> {
    pub(crate) seat: Seat<R>,
    pub(crate) finished: Finished<T>,
}

/// What the thread of a seat promises.
#[derive(Drop)]
pub(crate) struct SeatPromise<R: Runs, A, P> {
    pub(crate) answers: PhantomData<A>,
    pub(crate) seat: Snapshot<Seat<R>>,
    pub(crate) opener: Snapshot<P>,
}

impl<R: Runs, A: Answers<R>, P: Opener> Promise<SeatResult<R, P::Seat>> for SeatPromise<R, A, P> {
    ghost use Rattle.cdb_shared_session.specs.Promises.{HasRun};

    ghost kept_by = { λ p r.
        HasRun R.rules A.answers P.Seat.known P.opens p.seat.value p.opener.value r.seat r.finished };
}

/// A seat's session in a style by which no line chooses a seat, from its first line to its last. Hands the seat back.
#[tactic(auto, using(crate::proofs::SeatCalls::later_seat))]
fn run_styled<R: Runs, A: Answers<R>, T: Console, Rt: Wait>(
    shared: &Shared<R>,
    rt: &Rt,
    alloc: Global,
    welcome: Welcome<'_>,
    style: &Style<'_>,
    seat: Seat<R>,
    console: &mut T,
) -> (Seat<R>, Result<(), PlayFault>)
    requires rests { RestsAt shared.now seat }
    requires setup { welcome.setup.now ≡ seat.setup }
    requires seats { welcome.seats ≡ seat.seats }
    requires some { (1 ≤ welcome.seats) × (welcome.seats ≤ MAX_SEATS) }
    requires first { style.now.first ≡ seat.number }
    requires chooses { style.now.chooses ≡ false }
    ensures later { IsLater seat result.0 }
    ensures session { RunsSeat R.rules A.answers style.now seat
        result.0 result.1 (T.known console.old) (T.known console.new) }
{
    let caller = SeatCaller::<'_, R, A, Rt> {
        shared,
        rt,
        setup: welcome.setup,
        seats: welcome.seats,
        seat,
        replica: None,
        answers: PhantomData,
    };
    let (caller, outcome) = run(alloc, style, caller, console);
    let SeatCaller { seat, replica, .. } = caller;
    if let Some(replica) = replica {
        replica.close();
    }
    (seat, outcome)
}

/// What stands before the prompt of a seat with this number.
fn number_at<'a>(seats: u8, digits: &'a [u8], prompt: &[u8]) -> &'a [u8]
    ensures { (seat : ℕ) → digits.now ≡ decimal seat → result.now ≡ number_at seats seat prompt.now }
{
    if seats > 1 && !prompt.is_empty() {
        digits
    } else {
        &[]
    }
}

/// A seat's session, once its streams are open; where they can't be opened, there is none.
pub(crate) fn run_seat<R: Runs, A: Answers<R>, P: Opener, Rt: Wait>(
    shared: &Shared<R>,
    rt: &Rt,
    alloc: Global,
    welcome: Welcome<'_>,
    seat: Seat<R>,
    opener: P,
) -> SeatResult<R, P::Seat>
    requires { IsUnused shared.now welcome seat }
    ensures { HasRun R.rules A.answers P.Seat.known P.opens seat opener result.seat result.finished }
{
    let Endpoint {
        mut console,
        prompt,
    } = match opener.open(alloc) {
        Ok(endpoint) => endpoint,
        Err(fault) => {
            let finished = Finished {
                console: None,
                outcome: Err(PlayFault::from(fault)),
            };
            return SeatResult { seat, finished };
        }
    };
    let first = seat.number();
    let mut digits = Buffer::new();
    let number = digits.format(first).as_bytes();
    let style = Style {
        greeting: greeting_at(welcome.greeting, prompt),
        number: number_at(welcome.seats, number, prompt),
        prompt,
        first,
        chooses: false,
    };
    let (seat, outcome) = run_styled::<R, A, _, Rt>(
        shared,
        rt,
        alloc,
        welcome,
        &style,
        seat,
        &mut console,
    );
    SeatResult {
        seat,
        finished: Finished {
            console: Some(console),
            outcome,
        },
    }
}
