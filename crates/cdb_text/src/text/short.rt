//! Short texts: of numbers, names and events, and of the replies to most commands. Each is written in bytes that
//! are there, from some byte on, and takes no memory. So the most replies of a run are written where they are held.

ghost use Rattle.std.specs.Prelude.{◌≡◌, ◌+◌, ◌*◌, ◌/◌, ◌%◌, ◌<◌, ◌≤◌, ◌∷◌, [], ◌++◌, true};
ghost use Rattle.std.specs.Prelude.{codes, decimal, length, MatchOption};
ghost use Rattle.cdb_base.specs.NameTexts.{name_text, step_text, message_text, loss_text, register_text};
ghost use Rattle.cdb_base.specs.Refusal.{refusal_name, refusal_detail, refusal_text};
ghost use Rattle.cdb_commands.specs.ReplyView.{reply_view};
ghost use Rattle.cdb_text.specs.Events.{event_text, kind_text};
ghost use Rattle.cdb_text.specs.Pushes.{Writes, all_ascii};
ghost use Rattle.cdb_text.specs.Texts.{break_text, decides_text, text_of};
ghost use Rattle.cdb_text.specs.declared.text.short.TheConstants.{MOST_BYTES, MOST_CAUSES, MOST_REPORT};
ghost use Rattle.cdb_text.specs.declared.text.short_report.TheConstants.{MOST_LINE};
ghost use Rattle.cdb_text.specs.Reports.{causes_text};

use super::short_report::write_each;
use cdb_base::{CopyName, Event, Kind, MsgName, Proc, Refusal, Reg, StepId, StepName, Val};
use cdb_commands::Reply;
use itoa::Buffer;

/// As many bytes as a short text has at most.
pub const MOST_BYTES: usize = 80;

/// As many bytes as a short report has at most.
pub const MOST_REPORT: usize = 640;

#[inline(always)]
pub(super) fn write_byte(bytes: &mut [u8], from: usize, byte: u8) -> usize
    requires { (byte < 128) × (from < length bytes.old) }
    ensures written { Writes from result bytes.old bytes.new (byte ∷ []) }
    ensures end { result ≡ from + 1 }
{
    bytes[from] = byte;
    from + 1
}

#[inline(always)]
pub(super) fn write_word(bytes: &mut [u8], from: usize, word: &str) -> usize
    requires { (all_ascii word.now ≡ true) × (from + length word.now ≤ length bytes.old) }
    ensures written { Writes from result bytes.old bytes.new word.now }
    ensures end { result ≡ from + length word.now }
{
    let end = from + word.len();
    bytes[from..end].copy_from_slice(word.as_bytes());
    end
}

#[inline(always)]
fn write_digit(bytes: &mut [u8], from: usize, digit: u32) -> usize
    requires { (digit < 10) × (from < length bytes.old) }
    ensures written { Writes from result bytes.old bytes.new ((48 + digit) ∷ []) }
    ensures end { result ≡ from + 1 }
{
    write_byte(bytes, from, b'0' + digit as u8)
}

/// Two digits, the first of which may be 0.
#[inline(always)]
fn write_two_digits(bytes: &mut [u8], from: usize, number: u32) -> usize
    requires { (number < 100) × (from + 2 ≤ length bytes.old) }
    ensures written { Writes from result bytes.old bytes.new
        ((48 + number / 10) ∷ (48 + number % 10) ∷ []) }
    ensures end { result ≡ from + 2 }
{
    let next = write_digit(bytes, from, number / 10);
    write_digit(bytes, next, number % 10)
}

/// A number of one or two digits.
#[tactic(auto, using(std::proofs::lemmas::Fmt::decimal_digit, crate::proofs::Written::two_digits))]
#[inline(always)]
fn write_few_digits(bytes: &mut [u8], from: usize, number: u32) -> usize
    requires { (number < 100) × (from + 2 ≤ length bytes.old) }
    ensures written { Writes from result bytes.old bytes.new (decimal number) }
    ensures end { result ≤ from + 2 }
{
    if number < 10 {
        return write_digit(bytes, from, number);
    }
    write_two_digits(bytes, from, number)
}

/// A number of any length.
#[tactic(auto, using(crate::proofs::Written::number_is_ascii))]
#[inline(never)]
fn write_long(bytes: &mut [u8], from: usize, number: u32) -> usize
    requires { from + 10 ≤ length bytes.old }
    ensures written { Writes from result bytes.old bytes.new (decimal number) }
    ensures end { result ≤ from + 10 }
{
    let mut digits = Buffer::new();
    write_word(bytes, from, digits.format(number))
}

/// A number of two digits or more.
#[tactic(auto, using(crate::proofs::Written::two_digits))]
#[inline(never)]
fn write_digits(bytes: &mut [u8], from: usize, number: u32) -> usize
    requires { (10 ≤ number) × (from + 10 ≤ length bytes.old) }
    ensures written { Writes from result bytes.old bytes.new (decimal number) }
    ensures end { result ≤ from + 10 }
{
    if number < 100 {
        return write_two_digits(bytes, from, number);
    }
    if number < 10_000 {
        let next = write_few_digits(bytes, from, number / 100);
        return write_two_digits(bytes, next, number % 100);
    }
    write_long(bytes, from, number)
}

#[tactic(auto, using(std::proofs::lemmas::Fmt::decimal_digit))]
#[inline(always)]
pub(super) fn write_number(bytes: &mut [u8], from: usize, number: u32) -> usize
    requires { from + 10 ≤ length bytes.old }
    ensures written { Writes from result bytes.old bytes.new (decimal number) }
    ensures end { result ≤ from + 10 }
{
    if number < 10 {
        return write_digit(bytes, from, number);
    }
    write_digits(bytes, from, number)
}

/// The number of a process, which has one digit.
#[tactic(auto, using(std::proofs::lemmas::Fmt::decimal_digit))]
#[inline(always)]
pub(super) fn write_process(bytes: &mut [u8], from: usize, p: Proc) -> usize
    requires { from < length bytes.old }
    ensures written { Writes from result bytes.old bytes.new (decimal p) }
    ensures end { result ≡ from + 1 }
{
    write_digit(bytes, from, u32::from(p.number()))
}

#[inline(always)]
fn write_step(bytes: &mut [u8], from: usize, p: Proc, k: u16) -> usize
    requires { from + 12 ≤ length bytes.old }
    ensures written { Writes from result bytes.old bytes.new (step_text p k) }
    ensures end { result ≤ from + 12 }
{
    let next = write_process(bytes, from, p);
    let next = write_byte(bytes, next, b'.');
    write_number(bytes, next, u32::from(k))
}

#[inline(always)]
pub(super) fn write_message(bytes: &mut [u8], from: usize, name: MsgName) -> usize
    requires { from + 12 ≤ length bytes.old }
    ensures written { Writes from result bytes.old bytes.new (message_text name.s name.m) }
    ensures end { result ≤ from + 12 }
{
    let next = write_process(bytes, from, name.s);
    let next = write_byte(bytes, next, b'#');
    write_number(bytes, next, u32::from(name.m))
}

fn write_loss(bytes: &mut [u8], from: usize, copy: CopyName) -> usize
    requires { from + 22 ≤ length bytes.old }
    ensures written { Writes from result bytes.old bytes.new (loss_text copy) }
    ensures end { result ≤ from + 22 }
{
    let next = write_word(bytes, from, "lost ");
    let next = write_message(bytes, next, copy.msg);
    let next = write_word(bytes, next, " to ");
    write_process(bytes, next, copy.to)
}

pub(super) fn write_register(bytes: &mut [u8], from: usize, register: Reg) -> usize
    requires { from + 3 ≤ length bytes.old }
    ensures written { Writes from result bytes.old bytes.new (register_text register) }
    ensures end { result ≤ from + 3 }
{
    match register {
        Reg::R(p) => {
            let next = write_byte(bytes, from, b'r');
            write_process(bytes, next, p)
        }
        Reg::Dec => write_word(bytes, from, "dec"),
    }
}

/// What a step does, after a space.
#[inline(always)]
fn write_kind(bytes: &mut [u8], from: usize, p: Proc, kind: Kind) -> usize
    requires { from + 18 ≤ length bytes.old }
    ensures written { Writes from result bytes.old bytes.new (codes " " ++ kind_text p kind) }
    ensures end { result ≤ from + 18 }
{
    match kind {
        Kind::Query(leader) => {
            let next = write_word(bytes, from, " query ");
            write_process(bytes, next, leader)
        }
        Kind::Send(m) => {
            let next = write_word(bytes, from, " send ");
            write_message(bytes, next, MsgName { s: p, m })
        }
        Kind::Recv(s, m) => {
            let next = write_word(bytes, from, " recv ");
            write_message(bytes, next, MsgName { s, m })
        }
        Kind::Read(register) => {
            let next = write_word(bytes, from, " read ");
            write_register(bytes, next, register)
        }
        Kind::Write(register) => {
            let next = write_word(bytes, from, " write ");
            write_register(bytes, next, register)
        }
        Kind::Local => write_word(bytes, from, " local"),
        Kind::Learn => write_word(bytes, from, " learn"),
        Kind::Crash => write_word(bytes, from, " crash"),
    }
}

pub(super) fn write_event(bytes: &mut [u8], from: usize, event: &Event) -> usize
    requires { from + 30 ≤ length bytes.old }
    ensures written { Writes from result bytes.old bytes.new (event_text event.now) }
    ensures end { result ≤ from + 30 }
{
    match *event {
        Event::Step { p, k, kind } => {
            let doer = p;
            let next = write_step(bytes, from, p, k);
            write_kind(bytes, next, doer, kind)
        }
        Event::Lost(copy) => write_loss(bytes, from, copy),
    }
}

pub(super) fn write_decides(bytes: &mut [u8], from: usize, decides: Option<Val>) -> usize
    requires { from + 19 ≤ length bytes.old }
    ensures written { Writes from result bytes.old bytes.new (decides_text decides) }
    ensures end { result ≤ from + 19 }
{
    match decides {
        Some(value) => {
            let next = write_word(bytes, from, " decides ");
            write_number(bytes, next, value.number())
        }
        None => from,
    }
}

fn write_break(bytes: &mut [u8], from: usize, paused: Option<u32>) -> usize
    requires { from + 17 ≤ length bytes.old }
    ensures written { Writes from result bytes.old bytes.new (break_text paused) }
    ensures end { result ≤ from + 17 }
{
    match paused {
        Some(number) => {
            let next = write_word(bytes, from, " break ");
            write_number(bytes, next, number)
        }
        None => from,
    }
}

/// An event that was taken, and the decision that it made.
fn write_taken(bytes: &mut [u8], from: usize, event: &Event, decides: Option<Val>) -> usize
    requires { from + 49 ≤ length bytes.old }
    ensures written { Writes from result bytes.old bytes.new
        (event_text event.now ++ decides_text decides) }
    ensures end { result ≤ from + 49 }
{
    let next = write_event(bytes, from, event);
    write_decides(bytes, next, decides)
}

/// The reply to a step that was taken.
pub(super) fn write_stepped(
    bytes: &mut [u8],
    from: usize,
    event: &Event,
    decides: Option<Val>,
    paused: Option<u32>,
) -> usize
    requires { from + 67 ≤ length bytes.old }
    ensures { Writes from result bytes.old bytes.new
        (event_text event.now ++ decides_text decides ++ break_text paused ++ codes "\n") }
{
    let next = write_taken(bytes, from, event, decides);
    let next = write_break(bytes, next, paused);
    write_byte(bytes, next, b'\n')
}

pub(super) fn write_undone(bytes: &mut [u8], from: usize, event: &Event) -> usize
    requires { from + 38 ≤ length bytes.old }
    ensures { Writes from result bytes.old bytes.new
        (codes "undone " ++ event_text event.now ++ codes "\n") }
{
    let next = write_word(bytes, from, "undone ");
    let next = write_event(bytes, next, event);
    write_byte(bytes, next, b'\n')
}

pub(super) fn write_redone(
    bytes: &mut [u8],
    from: usize,
    event: &Event,
    decides: Option<Val>,
) -> usize
    requires { from + 57 ≤ length bytes.old }
    ensures { Writes from result bytes.old bytes.new
        (codes "redone " ++ event_text event.now ++ decides_text decides ++ codes "\n") }
{
    let next = write_word(bytes, from, "redone ");
    let next = write_taken(bytes, next, event, decides);
    write_byte(bytes, next, b'\n')
}

pub(super) fn write_name(bytes: &mut [u8], from: usize, name: StepId) -> usize
    requires { from + 22 ≤ length bytes.old }
    ensures written { Writes from result bytes.old bytes.new (name_text name) }
    ensures end { result ≤ from + 22 }
{
    match name {
        StepId::Step(StepName { p, k }) => write_step(bytes, from, p, k),
        StepId::Lost(copy) => write_loss(bytes, from, copy),
    }
}

fn write_detail(bytes: &mut [u8], from: usize, refusal: &Refusal) -> usize
    requires { from + 23 ≤ length bytes.old }
    ensures written { Writes from result bytes.old bytes.new (refusal_detail refusal.now) }
    ensures end { result ≤ from + 23 }
{
    match refusal {
        Refusal::NeededBy(name) => {
            let next = write_byte(bytes, from, b' ');
            write_name(bytes, next, *name)
        }
        Refusal::Paused(number) => {
            let next = write_byte(bytes, from, b' ');
            write_number(bytes, next, *number)
        }
        _ => from,
    }
}

/// The word of a refusal, which is short.
#[tactic(auto, using(crate::proofs::Written::name_is_short, crate::proofs::Written::name_is_ascii))]
fn write_refusal_name(bytes: &mut [u8], from: usize, refusal: &Refusal) -> usize
    requires { from + 13 ≤ length bytes.old }
    ensures written { Writes from result bytes.old bytes.new (refusal_name refusal.now) }
    ensures end { result ≤ from + 13 }
{
    write_word(bytes, from, refusal.name())
}

pub(super) fn write_refused(bytes: &mut [u8], from: usize, refusal: &Refusal) -> usize
    requires { from + 56 ≤ length bytes.old }
    ensures { Writes from result bytes.old bytes.new (refusal_text refusal.now ++ codes "\n") }
{
    let next = write_word(bytes, from, "refused ");
    let next = write_number(bytes, next, u32::from(refusal.number()));
    let next = write_byte(bytes, next, b' ');
    let next = write_refusal_name(bytes, next, refusal);
    let next = write_detail(bytes, next, refusal);
    write_byte(bytes, next, b'\n')
}

/// Writes the text of the reply to a step, a loss, an undo, a redo or what was refused from this byte on, where there
/// must be room for `MOST_BYTES`, and returns where the text ends; none of another reply, and then nothing is written.
pub fn write_short_reply(bytes: &mut [u8], from: usize, reply: &Reply) -> Option<usize>
    requires { from + MOST_BYTES ≤ length bytes.old }
    ensures { MatchOption result (bytes.new ≡ bytes.old)
        (λ end. Writes from end bytes.old bytes.new (text_of (reply_view reply.now))) }
{
    let end = match reply {
        Reply::Stepped {
            event,
            decides,
            paused,
        } => write_stepped(bytes, from, event, *decides, *paused),
        Reply::Undone(event) => write_undone(bytes, from, event),
        Reply::Redone { event, decides } => write_redone(bytes, from, event, *decides),
        Reply::Refused(refusal) => write_refused(bytes, from, refusal),
        _ => return None,
    };
    Some(end)
}

/// The names of causes, or ` none`.
fn write_causes(bytes: &mut [u8], from: usize, causes: &[StepId]) -> usize
    requires { from + 5 + MOST_LINE * length causes.now ≤ length bytes.old }
    ensures written { Writes from result bytes.old bytes.new (causes_text causes.now) }
    ensures end { result ≤ from + 5 + MOST_LINE * length causes.now }
{
    if causes.is_empty() {
        return write_word(bytes, from, " none");
    }
    write_each(bytes, from, causes)
}

/// How many causes an event has at most whose text is short.
pub const MOST_CAUSES: usize = 9;

/// Writes the text of an event and its direct causes, at most `MOST_CAUSES`, from this byte on, where there must be
/// room for `MOST_REPORT`, and returns where the text ends.
pub fn write_because(bytes: &mut [u8], from: usize, name: StepId, causes: &[StepId]) -> usize
    requires few { length causes.now ≤ MOST_CAUSES }
    requires room { from + MOST_REPORT ≤ length bytes.old }
    ensures { Writes from result bytes.old bytes.new
        (name_text name ++ codes " because" ++ causes_text causes.now ++ codes "\n") }
{
    let next = write_name(bytes, from, name);
    let next = write_word(bytes, next, " because");
    let next = write_causes(bytes, next, causes);
    write_byte(bytes, next, b'\n')
}
