//! The messages of a run.

ghost use Rattle.std.specs.Prelude.{◌≡◌, ◌<◌, ◌≤◌, length, false, IsTrue};
ghost use Rattle.std.specs.Prelude.{IfOk, OnOk, OnErr, IfSome, IfNone, MatchOption};
ghost use Rattle.std.specs.Option.{option_copied};
ghost use Rattle.cdb_message.specs.Search.{IsLowestAbove, HasNoneAbove};

use crate::flags::{cell_of_copy, cell_of_name, clear, is_set, set};
use crate::outbox::Outbox;
use crate::passed::Passed;
use cdb_base::{CopyName, MsgName, NoMemory, Payload, Proc};
use std::alloc::Global;
use std::marker::Model;

/// The messages of a run. A contract sees the payloads that each process sent, the set of the names
/// that it received, and the set of the copies that are lost.
///
/// Promise: A send, a receive, a loss and their inverses change lists and sets as their names say, and out of memory
/// changes nothing; the pending message is the least.
#[derive(Drop)]
pub struct Mail {
    sent: Vec<Outbox>,
    // For each process a flag for each name, and one for each copy.
    received: Vec<Vec<bool>>,
    lost: Vec<bool>,
    // What the look for a pending copy passes over: copies that were received or lost.
    passed: Passed,
}

impl Model for Mail {
    ghost use Rattle.cdb_message.specs.Codes.{mail_code};
    ghost use Rattle.cdb_message.specs.Flags.{mail_in};
    ghost use Rattle.cdb_message.specs.Mail.{MailState};
    ghost use Rattle.cdb_message.specs.Passed.{IsSound};

    ghost Value = { MailState };

    ghost coded = { mail_code };

    ghost view = { λ x. mail_in x.sent.items x.received.items x.lost.items };

    ghost invariant = { λ x. IsSound x.passed (mail_in x.sent.items x.received.items x.lost.items) };
}

impl Mail {
    ghost use Rattle.std.specs.Prelude.{ℕ};
    ghost use Rattle.cdb_base.specs.Limits.{MAX_PROCESSES, MAX_STEPS};
    ghost use Rattle.cdb_message.specs.Mail.{first_mail, sent_by};
    ghost use Rattle.cdb_message.specs.Mail.{message_name, copy_name};
    ghost use Rattle.cdb_message.specs.Mail.{last_name, next_name, MaySend, IsNameOfSent, IsUnsent};
    ghost use Rattle.cdb_message.specs.Mail.{payload_of, is_sent, is_received, is_lost, is_open};
    ghost use Rattle.cdb_message.specs.Mail.{add_send, add_receive, add_loss};
    ghost use Rattle.cdb_message.specs.Mail.{remove_send, remove_receive, remove_loss};
    ghost use Rattle.cdb_message.specs.Mail.{TakesBackSend, TakesBackReceive, TakesBackLoss};
    ghost use Rattle.cdb_message.specs.Mail.{next_pending, IsPending, HasNonePending, IsLeastPending};
    ghost use Rattle.cdb_message.specs.Passed.{HasNoneOpen};
    ghost use Rattle.cdb_message.specs.Search.{IsLeastOf, IsNext};

    /// The mail of `n` processes, at most 9, none of which has sent or received anything. `NoMemory` if
    /// an allocation fails.
    pub fn new(alloc: Global, n: u8) -> Result<Self, NoMemory>
        requires { n ≤ MAX_PROCESSES }
        ensures { IfOk result (λ mail. mail ≡ first_mail n) }
    {
        let mut sent = Vec::new(alloc);
        let mut received = Vec::new(alloc);
        for _ in 0..n {
            sent.push(Outbox::new(alloc))?;
            received.push(Vec::new(alloc))?;
        }
        let lost = Vec::new(alloc);
        let passed = Passed::new();
        Ok(Mail {
            sent,
            received,
            lost,
            passed,
        })
    }

    /// Process `p`, which has sent fewer than 9,999 messages, broadcasts a payload. Returns the name of
    /// the message. After `NoMemory` nothing was sent.
    pub fn send(&mut self, _alloc: Global, p: Proc, payload: Payload) -> Result<MsgName, NoMemory>
        requires among { p ≤ length self.old.sent }
        requires room { MaySend self.old p }
        ensures name { IfOk result (λ name. name ≡ next_name self.old p) }
        ensures ok { OnOk result (self.new ≡ add_send self.old p payload) }
        ensures err { OnErr result (self.new ≡ self.old) }
    {
        let outbox = &mut self.sent[p.index()];
        outbox.push(payload)?;
        let m = outbox.count();
        Ok(MsgName { s: p, m })
    }

    /// Takes the last send of process `p` back. Nobody has received that message, and none of its
    /// copies is lost.
    pub fn take_back_send(&mut self, p: Proc)
        requires among { p ≤ length self.old.sent }
        requires sent { 0 < length (sent_by self.old p) }
        requires not_received { (q : ℕ) →
            is_received self.old q (last_name self.old p) ≡ false }
        requires not_lost { (q : ℕ)
            → is_lost self.old (copy_name (last_name self.old p) q) ≡ false }
        ensures after { self.new ≡ remove_send self.old p }
        ensures undoes { TakesBackSend self.old p self.new }
    {
        let outbox = &mut self.sent[p.index()];
        outbox.pop();
    }

    /// Process `p` receives its copy of a message: it was sent, and `p` has not received it, nor is the
    /// copy lost. After `NoMemory` nothing was received.
    pub fn recv(&mut self, _alloc: Global, p: Proc, name: MsgName) -> Result<(), NoMemory>
        requires among { p ≤ length self.old.received }
        requires sent { IsTrue (is_sent self.old name) }
        requires not_received { is_received self.old p name ≡ false }
        requires not_lost { is_lost self.old (copy_name name p) ≡ false }
        ensures ok { OnOk result (self.new ≡ add_receive self.old p name) }
        ensures err { OnErr result (self.new ≡ self.old) }
    {
        let sender = name.s;
        set(&mut self.received[p.index()], cell_of_name(name))?;
        self.pass_over(p, sender);
        Ok(())
    }

    /// Takes the receive of a message, which process `p` has received, back.
    pub fn take_back_recv(&mut self, p: Proc, name: MsgName)
        requires among { p ≤ length self.old.received }
        requires received { IsTrue (is_received self.old p name) }
        ensures after { self.new ≡ remove_receive self.old p name }
        ensures undoes { TakesBackReceive self.old p name self.new }
    {
        self.passed.leave_out(p, name.s, name.m);
        clear(&mut self.received[p.index()], cell_of_name(name));
    }

    /// The copy of a message for process `p` gets lost: it was sent, and `p` has not received it, nor
    /// is the copy lost. After `NoMemory` nothing was lost.
    pub fn lose(&mut self, _alloc: Global, p: Proc, name: MsgName) -> Result<(), NoMemory>
        requires among { p ≤ length self.old.received }
        requires sent { IsTrue (is_sent self.old name) }
        requires not_received { is_received self.old p name ≡ false }
        requires not_lost { is_lost self.old (copy_name name p) ≡ false }
        ensures ok { OnOk result (self.new ≡ add_loss self.old (copy_name name p)) }
        ensures err { OnErr result (self.new ≡ self.old) }
    {
        let sender = name.s;
        set(&mut self.lost, cell_of_copy(CopyName { msg: name, to: p }))?;
        self.pass_over(p, sender);
        Ok(())
    }

    /// Takes the loss of the copy of a message for process `p`, which is lost, back.
    pub fn take_back_lose(&mut self, p: Proc, name: MsgName)
        requires lost { IsTrue (is_lost self.old (copy_name name p)) }
        ensures after { self.new ≡ remove_loss self.old (copy_name name p) }
        ensures undoes { TakesBackLoss self.old (copy_name name p) self.new }
    {
        self.passed.leave_out(p, name.s, name.m);
        clear(&mut self.lost, cell_of_copy(CopyName { msg: name, to: p }));
    }

    /// The payload of the message of that name, if it was sent.
    pub fn payload(&self, name: MsgName) -> Option<&Payload>
        ensures { option_copied result ≡ payload_of self.now name }
    {
        if name.m == 0 {
            return None;
        }
        let outbox = self.sent.get(name.s.index())?;
        outbox.get(name.m as usize - 1)
    }

    /// The name of the `m`-th message of process `s`, where there is such a process and it was sent.
    pub fn find(&self, s: u32, m: u32) -> Option<MsgName>
        ensures { MatchOption result (IsUnsent self.now s m) (IsNameOfSent self.now s m) }
    {
        if !self.is_process(s) {
            return None;
        }
        let sender = Proc::new(s as u8);
        if !self.was_sent(sender, m) {
            return None;
        }
        Some(MsgName {
            s: sender,
            m: m as u16,
        })
    }

    /// Whether there is a process of that number.
    fn is_process(&self, s: u32) -> bool
        ensures range { IsTrue result → (1 ≤ s) × (s ≤ MAX_PROCESSES) }
        ensures none { result ≡ false → (m : ℕ) → IsUnsent self.now s m }
    {
        1 <= s && s as usize <= self.sent.len()
    }

    /// Whether process `s` has sent an `m`-th message.
    #[tactic(auto, using(crate::proofs::Least::is_sent_within))]
    fn was_sent(&self, s: Proc, m: u32) -> bool
        ensures value { result ≡ is_sent self.now (message_name s m) }
        ensures limit { IsTrue result → m ≤ MAX_STEPS }
    {
        1 <= m && m <= u32::from(self.count_sent(s))
    }

    /// Whether process `p` has received the message of that name.
    pub fn has_received(&self, p: Proc, name: MsgName) -> bool
        requires { p ≤ length self.now.received }
        ensures { result ≡ is_received self.now p name }
    {
        is_set(&self.received[p.index()], cell_of_name(name))
    }

    /// Whether the copy of that message for process `p` is lost.
    pub fn lost(&self, p: Proc, name: MsgName) -> bool
        ensures { result ≡ is_lost self.now (copy_name name p) }
    {
        is_set(&self.lost, cell_of_copy(CopyName { msg: name, to: p }))
    }

    /// The least name above `after`, by sender and number, of a message that was sent and whose copy
    /// for process `p` was neither received nor lost.
    pub fn pending(&self, p: Proc, after: Option<MsgName>) -> Option<MsgName>
        requires among { p ≤ length self.now.received }
        ensures value { result ≡ next_pending self.now p after }
        // None is pending above `after`, or the result is the least that is.
        ensures least { MatchOption result (HasNonePending self.now p after)
            (IsLeastPending self.now p after) }
    {
        for s in 1..self.sent.len() + 1 {
            let above = after;
            if let Some(name) = self.pending_from(p, Proc::new(s as u8), above) {
                return Some(name);
            }
        }
        None
    }

    /// The least such name of the sender `s`.
    fn pending_from(&self, p: Proc, s: Proc, after: Option<MsgName>) -> Option<MsgName>
        requires among { p ≤ length self.now.received }
        ensures { IsLeastOf (λ name. (name.s ≡ s) × IsNext self.now p after name) result }
    {
        let low = lowest_above(after, s)?;
        let behind = u32::from(self.passed.watermark(p, s)) + 1;
        self.first_open(p, s, low.max(behind))
    }

    /// The least name of the sender `s`, from the number `low` on, whose copy for process `p` was
    /// neither received nor lost.
    fn first_open(&self, p: Proc, s: Proc, low: u32) -> Option<MsgName>
        requires among { p ≤ length self.now.received }
        requires from_one { 1 ≤ low }
        ensures { IsLeastOf (λ name. (name.s ≡ s) × (low ≤ name.m) × IsPending self.now p name) result }
    {
        for m in low..u32::from(self.count_sent(s)) + 1 {
            let name = MsgName { s, m: m as u16 };
            if self.is_open(p, name) {
                return Some(MsgName { s, m: m as u16 });
            }
        }
        None
    }

    /// The greatest number, among the messages that were sent, up to which process `p` has received or lost each
    /// message of `s`.
    fn highest_watermark(&self, p: Proc, s: Proc) -> u16
        requires among { p ≤ length self.now.received }
        ensures { HasNoneOpen self.now p s result }
    {
        let count = self.count_sent(s);
        let mut mark = self.passed.watermark(p, s);
        while mark < count && !self.is_open(p, MsgName { s, m: mark + 1 }) {
            mark = self.passed.behind(p, s, mark + 1);
        }
        mark
    }

    /// Moves the watermark of receiver `p` and sender `s` on as far as it goes.
    fn pass_over(&mut self, p: Proc, s: Proc)
        requires among { p ≤ length self.old.received }
        ensures { self.new ≡ self.old }
    {
        let watermark = self.highest_watermark(p, s);
        self.passed.set_watermark(p, s, watermark);
    }

    /// How many messages process `s` sent: at most 9,999.
    pub fn count_sent(&self, s: Proc) -> u16
        ensures value { result ≡ length (sent_by self.now s) }
        ensures limit { result ≤ MAX_STEPS }
    {
        match self.sent.get(s.index()) {
            Some(outbox) => outbox.count(),
            None => 0,
        }
    }

    /// Whether the copy of a message for process `p` was neither received nor lost.
    fn is_open(&self, p: Proc, name: MsgName) -> bool
        requires among { p ≤ length self.now.received }
        ensures { result ≡ is_open self.now p name }
    {
        let again = name;
        !self.has_received(p, again) && !self.lost(p, name)
    }
}

/// The least number from which on every name of `s` stands above the other name.
fn lowest_above(after: Option<MsgName>, s: Proc) -> Option<u32>
    ensures some { IfSome result (λ low. IsLowestAbove after s low) }
    ensures none { IfNone result (HasNoneAbove after s) }
{
    let Some(name) = after else {
        return Some(0);
    };
    if name.s < s {
        Some(0)
    } else if name.s == s {
        Some(u32::from(name.m) + 1)
    } else {
        None
    }
}
