//! What one step changes: its process, the mail and the registers.

ghost use Rattle.std.specs.Prelude.{◌≡◌, ℕ, OnOk, OnErr};
ghost use Rattle.cdb_message.specs.Mail.{MailState};
ghost use Rattle.cdb_register.specs.Registers.{RegisterStates};
ghost use Rattle.cdb_run.specs.Back.{overwritten_cell};
ghost use Rattle.cdb_rules.specs.InputsTaken.{mail_after, registers_after, IsPostable, sight, arriving, input_of};
ghost use Rattle.cdb_process.specs.Wishes.{wished_payload, wished_cell};
ghost use Rattle.cdb_run.specs.Stepped.{HasDue};

use cdb_base::{Cell, Kind, MsgName, NoMemory, Payload, Proc};
use cdb_message::mail::Mail;
use cdb_process::{Input, Process, Wish};
use cdb_register::Registers;
use std::alloc::Global;

/// The payload of that message, where it was sent and its copy for process `p` is not lost.
fn payload_arriving(mail: &Mail, p: Proc, name: &MsgName) -> Option<Payload>
    ensures { result ≡ arriving mail.now p name.now }
{
    if mail.lost(p, *name) {
        return None;
    }
    mail.payload(*name).copied()
}

/// What the machine of process `p` is given at a step of that kind.
#[inline(always)]
pub(crate) fn input_at(mail: &Mail, registers: &Registers, p: Proc, kind: &Kind) -> Option<Input>
    ensures { result ≡ input_of kind.now (sight mail.now registers.now p kind.now) }
{
    match kind {
        Kind::Query(leader) => Some(Input::Query(*leader)),
        Kind::Send(_) => Some(Input::Send),
        Kind::Recv(s, m) => {
            let payload = payload_arriving(mail, p, &MsgName { s: *s, m: *m })?;
            Some(Input::Recv(*s, payload))
        }
        Kind::Read(register) => {
            if !registers.has(*register) {
                return None;
            }
            Some(Input::Read(*register, registers.read(*register)))
        }
        Kind::Write(register) => {
            if !registers.has(*register) {
                return None;
            }
            Some(Input::Write(*register))
        }
        Kind::Local => Some(Input::Local),
        Kind::Learn => Some(Input::Learn),
        Kind::Crash => None,
    }
}

/// What a machine wishes for, where a step of that kind sends or writes it.
pub(crate) fn due<P: Process>(local: &P, kind: &Kind) -> Option<Wish>
    ensures mail { (mail : MailState) (p : ℕ) →
        mail_after mail p kind.now (wished_payload result)
        ≡ mail_after mail p kind.now (wished_payload (P.table.wish local.now)) }
    ensures registers { (registers : RegisterStates) →
        registers_after registers kind.now (wished_cell result)
        ≡ registers_after registers kind.now (wished_cell (P.table.wish local.now)) }
    ensures due { (registers : RegisterStates) →
        HasDue registers kind.now (P.table.wish local.now) →
        HasDue registers kind.now result }
{
    match kind {
        Kind::Send(_) | Kind::Write(_) => local.wish(),
        _ => None,
    }
}

/// Sends or receives what a step of process `p` sends or receives.
#[inline(always)]
pub(crate) fn post(
    alloc: Global,
    mail: &mut Mail,
    p: Proc,
    kind: &Kind,
    wish: &Option<Wish>,
) -> Result<(), NoMemory>
    requires { IsPostable mail.old p kind.now }
    ensures ok { OnOk result
        (mail.new ≡ mail_after mail.old p kind.now (wished_payload wish.now)) }
    ensures err { OnErr result (mail.new ≡ mail.old) }
{
    match (kind, wish) {
        (Kind::Send(_), Some(Wish::Send(payload))) => {
            mail.send(alloc, p, *payload)?;
            Ok(())
        }
        (Kind::Recv(s, m), _) => mail.recv(alloc, p, MsgName { s: *s, m: *m }),
        _ => Ok(()),
    }
}

/// Writes what a step writes, and returns the cell that it overwrote.
pub(crate) fn write(registers: &mut Registers, kind: &Kind, wish: &Option<Wish>) -> Option<Cell>
    requires { HasDue registers.old kind.now wish.now }
    ensures after { registers.new
        ≡ registers_after registers.old kind.now (wished_cell wish.now) }
    ensures overwritten { result ≡ overwritten_cell registers.old kind.now }
{
    match (kind, wish) {
        (Kind::Write(register), Some(Wish::Write(_, cell))) => {
            Some(registers.write(*register, *cell))
        }
        _ => None,
    }
}
