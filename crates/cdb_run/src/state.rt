//! What the standing events have made of the processes, of the mail and of the registers.

use crate::change::{due, input_at, post, write};
use crate::first::{first_processes, with_registers};
use crate::progress::{count, count_back, give_back, take_input};
use cdb_base::{Kind, MsgName, NoMemory, Proc};
use cdb_message::mail::Mail;
use cdb_process::Process;
use cdb_register::Registers;
use cdb_rules::Progress;
use cdb_setup::Setup;
use cdb_standing::UndoData;
use std::alloc::Global;

/// The state of a run.
#[derive(Drop)]
pub(crate) struct State<P: Drop> {
    pub(crate) processes: Vec<Progress<P>>,
    pub(crate) mail: Mail,
    pub(crate) registers: Registers,
}

impl<P: Process> State<P> {
    ghost use Rattle.std.specs.Prelude.{◌≡◌, ◌≤◌, if◌then◌else◌, length, IfOk, OnErr};
    ghost use Rattle.cdb_message.specs.Mail.{first_mail};
    ghost use Rattle.cdb_register.specs.Registers.{fresh_registers};
    ghost use Rattle.cdb_rules.specs.Machines.{progress_at_start, uses_registers};
    ghost use Rattle.cdb_run.specs.Current.{Held, held_in};
    ghost use Rattle.cdb_run.specs.Stepped.{MayStep, HasStepped};

    /// The state of a run of a setup in which nothing has happened.
    pub(crate) fn first(alloc: Global, setup: &Setup) -> Result<Self, NoMemory>
        ensures processes { IfOk result
            (λ state. state.processes.items ≡ progress_at_start P.table setup.now) }
        ensures mail { IfOk result (λ state. state.mail ≡ first_mail setup.now.processes) }
        ensures registers { IfOk result
            (λ state. state.registers ≡ fresh_registers
            (if uses_registers setup.now.algorithm then setup.now.processes else 0)) }
    {
        let processes = first_processes(alloc, setup)?;
        let mail = Mail::new(alloc, setup.n())?;
        let registers = Registers::new(alloc, with_registers(setup))?;
        Ok(State {
            processes,
            mail,
            registers,
        })
    }

    /// Takes a step of process `p`, with all that it changes. A refused growth changes nothing.
    pub(crate) fn step(
        &mut self,
        alloc: Global,
        p: Proc,
        kind: &Kind,
    ) -> Result<UndoData<P::Back>, NoMemory>
        requires { MayStep P.table (held_in self.old) p kind.now }
        ensures ok { IfOk result
            (λ left. HasStepped P.table P.before (held_in self.old) p kind.now left (held_in self.new)) }
        ensures err { OnErr result (held_in self.new ≡ held_in self.old) }
    {
        let progress = &mut self.processes[p.index()];
        let wish = due(&progress.local, kind);
        let input = input_at(&self.mail, &self.registers, p, kind);
        let back = take_input(alloc, &mut progress.local, input)?;
        if let Err(refused) = post(alloc, &mut self.mail, p, kind, &wish) {
            give_back(&mut progress.local, back);
            return Err(refused);
        }
        count(progress, kind);
        let overwritten = write(&mut self.registers, kind, &wish);
        Ok(UndoData { back, overwritten })
    }

    /// Takes back the last step of process `p`, with all that it changed. It takes no memory.
    pub(crate) fn take_back(&mut self, p: Proc, kind: &Kind, left: UndoData<P::Back>)
        requires { (was : Held P) × HasStepped P.table P.before was p kind.now left (held_in self.old) }
        ensures { (was : Held P) → HasStepped P.table P.before was p kind.now left (held_in self.old)
            → held_in self.new ≡ was }
    {
        let progress = &mut self.processes[p.index()];
        count_back(progress, kind, left.back);
        match kind {
            Kind::Send(_) => self.mail.take_back_send(p),
            Kind::Recv(s, m) => self.mail.take_back_recv(p, MsgName { s: *s, m: *m }),
            Kind::Write(register) => {
                if let Some(cell) = left.overwritten {
                    self.registers.restore(*register, cell);
                }
            }
            _ => {}
        }
    }
}
