//! Whether a step may be taken, and which event it is.

ghost use Rattle.std.specs.Prelude.{◌≡◌, ◌≤◌, Some, length};
ghost use Rattle.cdb_message.specs.Mail.{message_name};
ghost use Rattle.cdb_run.specs.Plans.{IsInRun, GoesOn, sends_of, accepts, next_step_of, step_if_accepted};
ghost use Rattle.cdb_run.specs.Plans.{plan_of, plan_again_of, copy_refusal};
ghost use Rattle.cdb_rules.specs.Refusals.{wished_kind, unless_refused, planned_loss};

use crate::among::process_among;
use cdb_base::limits::MAX_STEPS;
use cdb_base::{Act, CopyName, Event, Kind, MsgName, Proc, Refusal};
use cdb_message::mail::Mail;
use cdb_process::{Input, Process, Wish, accepts_query, accepts_receive};
use cdb_register::Registers;
use cdb_rules::Progress;
use cdb_setup::Setup;

/// What is seen of process `p` where a step of it is asked for: the setup, the mail and the registers as they stand,
/// and how far the process has come.
#[derive(Drop)]
pub(crate) struct Seen<'a, P: Drop> {
    pub(crate) setup: &'a Setup,
    pub(crate) mail: &'a Mail,
    pub(crate) registers: &'a Registers,
    pub(crate) progress: &'a Progress<P>,
    pub(crate) p: Proc,
}

/// The kind of step that a wish names, after this many sends.
fn kind_of_wish(wish: &Wish, sends: u16) -> Kind
    requires { sends ≤ MAX_STEPS }
    ensures { result ≡ wished_kind sends wish.now }
{
    match wish {
        Wish::Send(_) => Kind::Send(sends + 1),
        Wish::Read(register) => Kind::Read(*register),
        Wish::Write(register, _) => Kind::Write(*register),
        Wish::Local => Kind::Local,
    }
}

impl<P: Process> Seen<'_, P> {
    /// Whether the machine accepts the step that it wishes for: a read and a write need their register, and nothing
    /// else can be lacking.
    fn is_possible(&self, wish: &Wish) -> bool
        requires { P.table.wish self.now.progress.now.local ≡ Some wish.now }
        ensures { result ≡ accepts P.table self.now (wished_kind (sends_of self.now) wish.now) }
    {
        match wish {
            Wish::Send(_) | Wish::Local => true,
            Wish::Read(register) | Wish::Write(register, _) => self.registers.has(*register),
        }
    }

    /// Whether the machine accepts a step of that kind now.
    #[inline(always)]
    fn does_accept(&self, kind: &Kind) -> bool
        ensures { result ≡ accepts P.table self.now kind.now }
    {
        let local = &self.progress.local;
        match kind {
            Kind::Query(_) => accepts_query(local),
            Kind::Send(m) => *m == self.mail.count_sent(self.p) + 1 && local.accepts(&Input::Send),
            Kind::Recv(_, _) => accepts_receive(local),
            Kind::Read(register) => {
                self.registers.has(*register)
                    && local.accepts(&Input::Read(*register, self.registers.read(*register)))
            }
            Kind::Write(register) => {
                self.registers.has(*register) && local.accepts(&Input::Write(*register))
            }
            Kind::Local => local.accepts(&Input::Local),
            Kind::Learn => local.accepts(&Input::Learn),
            Kind::Crash => true,
        }
    }

    /// The next step of the process, where it has fewer than it may have.
    fn next_step(&self, kind: Kind) -> Result<Event, Refusal>
        ensures { result ≡ next_step_of self.now kind }
    {
        if self.progress.steps >= u32::from(MAX_STEPS) {
            return Err(Refusal::StepLimit);
        }
        let k = self.progress.steps as u16 + 1;
        Ok(Event::Step { p: self.p, k, kind })
    }

    /// What the process learns, or that it crashes.
    fn plan_kind(&self, kind: Kind) -> Result<Event, Refusal>
        ensures { result ≡ step_if_accepted P.table self.now kind }
    {
        let asked = kind;
        if !self.does_accept(&asked) {
            return Err(Refusal::NotNow);
        }
        self.next_step(kind)
    }

    /// What the process does of itself.
    fn plan_go(&self) -> Result<Event, Refusal>
        requires { GoesOn P.table self.now }
        ensures { result ≡ plan_of P.table self.now Act.Go }
    {
        let Some(wish) = self.progress.local.wish() else {
            return Err(Refusal::NotNow);
        };
        if !self.is_possible(&wish) {
            return Err(Refusal::NotNow);
        }
        self.next_step(kind_of_wish(&wish, self.mail.count_sent(self.p)))
    }

    /// The process asks the oracle, for the setup's next answer or with the leader that is named.
    fn plan_query(&self, named: Option<u32>) -> Result<Event, Refusal>
        requires { GoesOn P.table self.now }
        ensures { result ≡ plan_of P.table self.now (Act.Query named) }
    {
        if !accepts_query(&self.progress.local) {
            return Err(Refusal::NotNow);
        }
        match named {
            None => match self.setup.answer(self.p, self.progress.queries + 1) {
                Some(leader) => self.next_step(Kind::Query(leader)),
                None => Err(Refusal::NoAnswer),
            },
            Some(leader) => match process_among(self.setup.n(), leader) {
                Some(leader) => self.next_step(Kind::Query(leader)),
                None => Err(Refusal::BadLeader),
            },
        }
    }

    /// The process receives the `m`-th message of process `s`.
    fn plan_recv(&self, s: u32, m: u32) -> Result<Event, Refusal>
        requires { GoesOn P.table self.now }
        ensures { result ≡ plan_of P.table self.now (Act.Recv s m) }
    {
        if !accepts_receive(&self.progress.local) {
            return Err(Refusal::NotNow);
        }
        let Some(name) = self.mail.find(s, m) else {
            return Err(Refusal::NoMessage);
        };
        let asked = name;
        if self.mail.has_received(self.p, asked) {
            return Err(Refusal::Taken);
        }
        let step = self.next_step(Kind::Recv(name.s, name.m))?;
        if self.mail.lost(self.p, name) {
            return Err(Refusal::Lost);
        }
        Ok(step)
    }

    /// What a step of the process returns: the first refusal that holds, else the event that the act names.
    pub(crate) fn plan(&self, act: Act) -> Result<Event, Refusal>
        requires { IsInRun self.now }
        ensures { result ≡ plan_of P.table self.now act }
    {
        if !self.progress.alive {
            return Err(Refusal::Crashed);
        }
        if self.progress.local.decision().is_some() {
            return Err(Refusal::Done);
        }
        match act {
            Act::Go => self.plan_go(),
            Act::Learn => self.plan_kind(Kind::Learn),
            Act::Crash => self.plan_kind(Kind::Crash),
            Act::Query(named) => self.plan_query(named),
            Act::Recv(s, m) => self.plan_recv(s, m),
        }
    }

    /// What taking the `k`-th step of the process again returns.
    pub(crate) fn plan_again(&self, k: u16, kind: &Kind) -> Result<Event, Refusal>
        requires { IsInRun self.now }
        ensures { result ≡ plan_again_of P.table self.now k kind.now }
    {
        let progress = self.progress;
        if u32::from(k) != progress.steps + 1 {
            return Err(Refusal::Moved);
        }
        if !progress.alive {
            return Err(Refusal::Crashed);
        }
        if progress.local.decision().is_some() {
            return Err(Refusal::Done);
        }
        if !self.does_accept(kind) {
            return Err(Refusal::NotNow);
        }
        let p = self.p;
        let again = Event::Step { p, k, kind: *kind };
        match kind {
            Kind::Recv(s, m) => with_open_copy(self.mail, p, &MsgName { s: *s, m: *m }, again),
            _ => Ok(again),
        }
    }
}

/// The event, where the copy of a message for process `p` can be received or lost; else why it can be neither.
fn with_open_copy(mail: &Mail, p: Proc, name: &MsgName, event: Event) -> Result<Event, Refusal>
    requires { p ≤ length mail.now.received }
    ensures { result ≡ unless_refused (copy_refusal mail.now p name.now) (Some event) }
{
    if mail.payload(*name).is_none() {
        return Err(Refusal::NoMessage);
    }
    if mail.has_received(p, *name) {
        return Err(Refusal::Taken);
    }
    if mail.lost(p, *name) {
        return Err(Refusal::Lost);
    }
    Ok(event)
}

/// What losing the copy of the `m`-th message of process `s` for process `p` returns.
pub(crate) fn plan_loss(
    setup: &Setup,
    mail: &Mail,
    s: u32,
    m: u32,
    p: u32,
) -> Result<Event, Refusal>
    requires { length mail.now.received ≡ setup.now.processes }
    ensures { result ≡ planned_loss setup.now mail.now (message_name s m) p }
{
    if setup.version() != 2 {
        return Err(Refusal::NoLoss);
    }
    let Some(to) = process_among(setup.n(), p) else {
        return Err(Refusal::NoProcess);
    };
    let Some(msg) = mail.find(s, m) else {
        return Err(Refusal::NoMessage);
    };
    let name = msg;
    with_open_copy(mail, to, &name, Event::Lost(CopyName { msg, to }))
}
