//! The oracle's answers on which a trail rests.

ghost use Rattle.cdb_agreement.specs.Algorithms.{rules};
ghost use Rattle.cdb_rules.specs.ByRules.{IsInOrder};
ghost use Rattle.cdb_text.specs.Pushes.{Pushes};
ghost use Rattle.cdb_trail.specs.Oracle.{trail_events, answers_among, answers_in, answers_text, answers_word};
ghost use Rattle.cdb_trail.specs.Oracle.{began, counts, is_answer, on_trail, rests};
ghost use Rattle.std.specs.List.{list_any};
ghost use Rattle.std.specs.Prelude.{◌≡◌, ◌==◌, length, map, IfOk};

use cdb_any_run::AnyRun;
use cdb_base::{Event, MsgName, NoMemory, Proc, StepId};
use cdb_deeds::{Deed, HasDeeds, ReceivedNames};
use cdb_explain::{fresh, next_deed, play_on, round_by};
use cdb_rules::Trace;
use cdb_text::push_causes;
use std::alloc::{AllocError, Global};

/// An event of a run, what it did, the round of its process before it, and whether it is on the trail.
#[derive(Drop)]
pub struct TrailEvent {
    event: Event,
    deed: Deed,
    round: u32,
    on_trail: bool,
}

/// Whether one of the messages is of that sender.
fn has_sender(names: &[MsgName], sender: Proc) -> bool
    ensures { result ≡ list_any (λ name. name.s == sender) names.now }
{
    names.iter().any(|name| name.s == sender)
}

/// Whether a step of process `p` that did that counts an answer to process `q`.
fn counts(deed: &Deed, p: Proc, q: Proc) -> bool
    ensures { result ≡ counts deed.now p q }
{
    match deed {
        Deed::Votes { by, .. } => has_sender(by.names(), q),
        Deed::SettlesRegister { .. } | Deed::SettlesInput(_) => q == p,
        _ => false,
    }
}

/// Whether the step began that round.
fn began(deed: &Deed, round: u32) -> bool
    ensures { result ≡ began deed.now round }
{
    match deed {
        Deed::Round(r) => *r == round,
        _ => false,
    }
}

/// Whether the query began the round of the vote, and the vote counts its answer.
fn rests(vote: &TrailEvent, query: &TrailEvent) -> bool
    ensures { result ≡ rests vote.now query.now }
{
    match vote.event {
        Event::Step { p, .. } => match query.event {
            Event::Step { p: q, .. } => {
                counts(&vote.deed, p, q) && began(&query.deed, vote.round)
            }
            Event::Lost(_) => false,
        },
        Event::Lost(_) => false,
    }
}

/// Those of the events that are on the trail, in order.
fn on_trail<'a>(alloc: Global, all: &'a [TrailEvent]) -> Result<Vec<&'a TrailEvent>, NoMemory>
    ensures { IfOk result (λ found. map (λ it. it.now) found.items ≡ on_trail all.now) }
{
    let mut found = Vec::new(alloc);
    for it in all {
        if it.on_trail {
            found.push(it)?;
        }
    }
    Ok(found)
}

/// Whether one of the votes rests on the query.
fn is_answer(votes: &[&TrailEvent], query: &TrailEvent) -> bool
    ensures { result ≡ is_answer (map (λ vote. vote.now) votes.now) query.now }
{
    for vote in votes {
        if rests(vote, query) {
            return true;
        }
    }
    false
}

/// The names of the queries on which a vote on the trail rests, in order.
fn answers(alloc: Global, all: &[TrailEvent]) -> Result<Vec<StepId>, NoMemory>
    ensures { IfOk result (λ names. names.items ≡ answers_among (on_trail all.now) all.now) }
{
    let votes = on_trail(alloc, all)?;
    let mut names = Vec::new(alloc);
    for query in all {
        if is_answer(votes.as_slice(), query) {
            names.push(query.event.name())?;
        }
    }
    Ok(names)
}

/// What is told of all events of the run, where those on the trail are flagged.
fn trail_events<T: HasDeeds>(
    alloc: Global,
    run: &Trace,
    flags: &[bool],
) -> Result<Vec<TrailEvent>, NoMemory>
    requires valid { IsInOrder T.rules run.now }
    requires a_flag_each { length flags.now ≡ length run.now.history }
    ensures { IfOk result (λ all. all.items ≡ trail_events T.rules run.now flags.now) }
{
    let mut again = fresh::<T>(alloc, run)?;
    let mut names = ReceivedNames::none(alloc)?;
    let events = run.events();
    let mut all = Vec::new(alloc);
    for i in 0..events.len() {
        let event = events[i];
        let round = round_by(&again, &event);
        let deed = next_deed(alloc, &again, &names, run, i)?;
        play_on(alloc, &mut again, &mut names, run, i)?;
        all.push(TrailEvent {
            event,
            deed,
            round,
            on_trail: flags[i],
        })?;
    }
    Ok(all)
}

/// The names of the queries whose answers a trail rests on, whose events are flagged.
pub(crate) fn answers_in(
    alloc: Global,
    run: &Trace,
    flags: &[bool],
) -> Result<Vec<StepId>, NoMemory>
    requires valid { IsInOrder rules run.now }
    requires a_flag_each { length flags.now ≡ length run.now.history }
    ensures { IfOk result (λ names. names.items ≡ answers_in run.now flags.now) }
{
    let all = trail_events::<AnyRun>(alloc, run, flags)?;
    let names = answers(alloc, all.as_slice())?;
    Ok(names)
}

/// Adds the words before the oracle's answers.
#[tactic(auto, unfolding(crate::specs::Oracle::answers_word))]
fn push_word(text: &mut String) -> Result<(), AllocError>
    ensures { Pushes result text.old text.new answers_word }
{
    text.push_str("oracle answers")
}

/// Adds the line of the oracle's answers.
pub(crate) fn push_answers(text: &mut String, names: &[StepId]) -> Result<(), AllocError>
    ensures { Pushes result text.old text.new (answers_text names.now) }
{
    push_word(text)?;
    push_causes(text, names)?;
    text.push_str("\n")
}
