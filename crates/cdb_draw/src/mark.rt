//! The marks of a picture.

ghost use Rattle.std.specs.Prelude.{◌≡◌, ◌≤◌, [], option_copied, string_bytes};
ghost use Rattle.cdb_draw.specs.EventMarks.{begun, below_place, below_text, carried_text, decided_text, deed_texts};
ghost use Rattle.cdb_draw.specs.EventMarks.{kind_texts, lane_of, mark_text, marked_text, note_text, rows, tick_text};
ghost use Rattle.cdb_draw.specs.EventMarks.{value_of};
ghost use Rattle.cdb_draw.specs.Layout.{IsGrid};
ghost use Rattle.cdb_explain.specs.Explanations.{whole_text};
ghost use Rattle.cdb_explain.specs.declared.line.Causes.TheVariants.{Shown};
ghost use Rattle.cdb_draw.specs.Pieces.{piece_text, pieces_text};
ghost use Rattle.cdb_base.specs.NameTexts.{message_text, register_text};
ghost use Rattle.cdb_message.specs.Mail.{payload_of};
ghost use Rattle.cdb_rules.specs.ByRules.{mail_in};
ghost use Rattle.cdb_text.specs.Pushes.{Pushes};
ghost use Rattle.cdb_text.specs.Reports.{value_text};

use crate::holds::push_written;
use crate::layout::{Grid, spot};
use crate::piece::Piece::{After, Between, Number, Text};
use crate::piece::{Piece, push_each};
use crate::weight::Weight;
use cdb_base::limits::MAX_ENTRIES;
use cdb_base::{Event, Kind, MsgName, Payload, Proc, Reg, Val};
use cdb_deeds::Deed;
use cdb_explain::{Causes, decision_by, push_whole};
use cdb_rules::Runs;
use std::alloc::{AllocError, Global};

/// The name of a message.
fn message(s: Proc, m: u16) -> Piece<'static>
    ensures { piece_text result ≡ message_text s m }
{
    Between(usize::from(s.number()), "#", usize::from(m))
}

/// The name of a register.
fn register(register: Reg) -> Piece<'static>
    ensures { piece_text result ≡ register_text register }
{
    match register {
        Reg::R(p) => After("r", usize::from(p.number())),
        Reg::Dec => Text("dec"),
    }
}

/// What a step of process `p` does, in a word, and with what.
fn kind_texts(p: Proc, kind: Kind) -> (&'static str, Piece<'static>)
    ensures word { result.0.now ≡ (kind_texts p kind).0 }
    ensures what { piece_text result.1 ≡ (kind_texts p kind).1 }
{
    match kind {
        Kind::Query(_) => ("query", Text("")),
        Kind::Send(m) => ("send", message(p, m)),
        Kind::Recv(s, m) => ("recv", message(s, m)),
        Kind::Read(it) => ("read", register(it)),
        Kind::Write(it) => ("write", register(it)),
        Kind::Local => ("local", Text("")),
        Kind::Learn => ("learn", Text("")),
        Kind::Crash => ("crash", Text("")),
    }
}

/// The shape of the mark of an event, and the three rows above it.
fn rows(event: &Event) -> (&'static str, Piece<'static>, Piece<'static>, Piece<'static>)
    ensures shape { result.0.now ≡ (rows event.now).0 }
    ensures first { piece_text result.1 ≡ (rows event.now).1 }
    ensures second { piece_text result.2 ≡ (rows event.now).2 }
    ensures third { piece_text result.3 ≡ (rows event.now).3 }
{
    match *event {
        Event::Step { p, k, kind } => {
            let (word, what) = kind_texts(p, kind);
            let name = Between(usize::from(p.number()), ".", usize::from(k));
            (word, name, Text(word), what)
        }
        Event::Lost(copy) => {
            let name = copy.msg;
            let to = After("to ", usize::from(copy.to.number()));
            ("lost", Text("lost"), message(name.s, name.m), to)
        }
    }
}

/// A value, or `none`.
pub(crate) fn value(value: Option<Val>) -> Piece<'static>
    ensures { piece_text result ≡ value_text value }
{
    match value {
        Some(value) => Number(value.number() as usize),
        None => Text("none"),
    }
}

/// The value that a message carries.
fn value_of(payload: &Payload) -> Option<Val>
    ensures { result ≡ value_of payload.now }
{
    match *payload {
        Payload::P1 { est, .. } | Payload::D { est } => Some(est),
        Payload::P2 { aux, .. } => aux,
    }
}

/// The value that a message of a run carries, where it was sent.
fn carried<T: Runs>(run: &T, name: MsgName) -> Piece<'static>
    ensures { piece_text result
        ≡ carried_text (payload_of (mail_in T.rules (T.run run.now)) name) }
{
    match run.payload(name) {
        Some(payload) => value(value_of(payload)),
        None => Text(""),
    }
}

/// What a step did, in a word, and with which value or round.
fn deed_texts(deed: &Deed) -> (&'static str, Piece<'static>)
    ensures word { result.0.now ≡ (deed_texts deed.now).0 }
    ensures number { piece_text result.1 ≡ (deed_texts deed.now).1 }
{
    match deed {
        Deed::Nothing | Deed::Round(_) => ("", Text("")),
        Deed::Votes { source, .. } => ("votes", value(Some(source.value))),
        Deed::VotesNone { .. } => ("votes", Text("none")),
        Deed::Settles { source, .. } => ("settles", value(Some(source.value))),
        Deed::Adopts { source, .. } => ("adopts", value(Some(source.value))),
        Deed::Keeps { value: kept, .. } => ("keeps", value(Some(*kept))),
        Deed::Learns(source) => ("learns", value(Some(source.value))),
        Deed::SettlesRegister { value: held, .. } => ("settles", value(Some(*held))),
        Deed::SettlesInput(input) => ("settles", value(Some(*input))),
        Deed::GivesUp { round, .. } => ("gives up", After("round ", *round as usize)),
        Deed::Carries(round) => ("carries", After("round ", *round as usize)),
    }
}

/// What stands in the first row below the mark of an event: the value that it decides, or else what its kind has there.
fn below<T: Runs>(run: &T, deed: &Deed, event: &Event, decided: Option<Val>) -> Piece<'static>
    ensures { piece_text result
        ≡ below_text decided (mail_in T.rules (T.run run.now)) deed.now event.now }
{
    if let Some(value) = decided {
        return Number(value.number() as usize);
    }
    match *event {
        Event::Step { p, kind, .. } => match kind {
            Kind::Query(leader) => After("leader ", usize::from(leader.number())),
            Kind::Send(m) => carried(run, MsgName { s: p, m }),
            Kind::Recv(s, m) => carried(run, MsgName { s, m }),
            Kind::Local | Kind::Learn => Text(deed_texts(deed).0),
            _ => Text(""),
        },
        Event::Lost(_) => Text(""),
    }
}

/// The ring of a decision with its word, and how what stands below the mark looks, and where: a decision beside the
/// arrow of a read or a write.
fn ring(event: &Event, decided: &Option<Val>) -> (&'static str, &'static str)
    ensures ring { result.0.now ≡ decided_text decided.now }
    ensures place { result.1.now ≡ below_place decided.now event.now }
{
    let ring = "<use href='#decided'/><text class='decision' y='-48'>decides</text>";
    match (decided, *event) {
        (None, _) => ("", "class='value' y='22'"),
        (
            Some(_),
            Event::Step {
                kind: Kind::Read(_) | Kind::Write(_),
                ..
            },
        ) => (ring, "class='beside' x='3' y='33'"),
        (Some(_), _) => (ring, "class='decision' y='22'"),
    }
}

/// The round that an event which did that begins.
fn begun(deed: &Deed) -> Option<u32>
    ensures { result ≡ begun deed.now }
{
    match *deed {
        Deed::Round(round) => Some(round),
        _ => None,
    }
}

/// The tick of a round that begins, and what stands in the second row below the mark: the round, or the value of what
/// a step by itself did.
fn tick(round: Option<u32>, deed: &Deed, event: &Event) -> (&'static str, Piece<'static>)
    ensures tick { result.0.now ≡ tick_text round }
    ensures note { piece_text result.1 ≡ note_text round deed.now event.now }
{
    match (round, *event) {
        (Some(round), _) => ("<path d='M-15,-5v10'/>", After("round ", round as usize)),
        (
            None,
            Event::Step {
                kind: Kind::Local | Kind::Learn,
                ..
            },
        ) => ("", deed_texts(deed).1),
        (None, _) => ("", Text("")),
    }
}

/// The process on whose lane an event stands.
fn lane_of(event: &Event) -> Proc
    ensures { result ≡ lane_of event.now }
{
    match *event {
        Event::Step { p, .. } => p,
        Event::Lost(copy) => copy.to,
    }
}

/// The mark of the last event of a run, which stands at a position, from 1, and did that.
#[tactic(auto, unfolding(crate::specs::EventMarks::marked_text))]
fn mark<'a, T: Runs>(
    grid: Grid,
    deed: &Deed,
    run: &T,
    weight: Weight,
    position: usize,
    event: &Event,
    whole: &'a str,
) -> [Piece<'a>; 24]
    requires grid { IsGrid grid }
    requires position { position ≤ MAX_ENTRIES }
    ensures { pieces_text result
        ≡ marked_text T.rules grid deed.now (T.run run.now) weight position event.now
        whole.entry.now }
{
    let decided = decision_by(run, event);
    let (ring, place) = ring(event, &decided);
    let below = below(run, deed, event, decided);
    let (tick, note) = tick(begun(deed), deed, event);
    let (shape, first, second, third) = rows(event);
    let at = spot(grid, position, lane_of(event));
    [
        Text("<g class='"),
        Text(weight.class()),
        Text("' transform='translate("),
        Between(at.x, ",", at.y),
        Text(")'><title>"),
        Text(whole),
        Text("</title>"),
        Text(ring),
        Text(tick),
        Text("<use href='#"),
        Text(shape),
        Text("'/><text y='-37'>"),
        first,
        Text("</text><text y='-26'>"),
        second,
        Text("</text><text y='-15'>"),
        third,
        Text("</text><text "),
        Text(place),
        Text(">"),
        below,
        Text("</text><text class='note' y='33'>"),
        note,
        Text("</text></g>\n"),
    ]
}

/// Adds the mark of the last event of a run, which stands at a position, from 1, and what the event left in a register.
/// Its whole text is made in `whole`.
pub(crate) fn push_mark<T: Runs>(
    alloc: Global,
    text: &mut String,
    grid: Grid,
    deed: &Deed,
    run: &T,
    weight: Weight,
    position: usize,
    event: &Event,
    whole: &mut String,
) -> Result<(), AllocError>
    requires grid { IsGrid grid }
    requires position { position ≤ MAX_ENTRIES }
    ensures { Pushes result text.old text.new
        (mark_text T.rules grid (T.run run.now) deed.now (T.run run.now) weight position event.now) }
{
    whole.clear();
    push_whole(alloc, whole, Causes::Shown, deed, run, event)?;
    push_each(
        text,
        &mark(grid, deed, run, weight, position, event, whole.as_str()),
    )?;
    push_written(text, grid, run, weight, position, event)
}
