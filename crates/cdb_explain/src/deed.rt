//! What a step did, as text.

ghost use Rattle.cdb_deeds.specs.declared.deed.Deed.TheVariants.{Votes, SettlesInput};
ghost use Rattle.cdb_explain.specs.DeedTexts.{by_text, deed_text, named_text, register_text, source_text};
ghost use Rattle.cdb_text.specs.Pushes.{Pushes};
ghost use Rattle.std.specs.List.{flat_map};
ghost use Rattle.std.specs.Prelude.{◌++◌, decimal};

use cdb_base::{MsgName, Proc, Val};
use cdb_deeds::{Deed, Messages, Source};
use std::alloc::AllocError;

/// Adds each name after a space.
fn push_names(text: &mut String, names: &[MsgName]) -> Result<(), AllocError>
    ensures { Pushes result text.old text.new (flat_map named_text names.now) }
{
    for name in names {
        write!(text, " {name}")?;
    }
    Ok(())
}

/// Adds by which messages.
fn push_by(text: &mut String, by: &Messages) -> Result<(), AllocError>
    ensures { Pushes result text.old text.new (by_text by.now) }
{
    text.push_str(" by")?;
    push_names(text, by.names())
}

/// Adds a value and its message, after a word.
fn push_source(text: &mut String, word: &str, source: Source) -> Result<(), AllocError>
    ensures { Pushes result text.old text.new (word.now ++ source_text source) }
{
    let (value, message) = (source.value.number(), source.message);
    write!(text, "{word}{value} of {message}")
}

/// Adds a number after a word.
fn push_number(text: &mut String, word: &str, number: u32) -> Result<(), AllocError>
    ensures { Pushes result text.old text.new (word.now ++ decimal number) }
{
    write!(text, "{word}{number}")
}

/// Adds a register by its number, after a word.
fn push_register(text: &mut String, word: &str, register: usize) -> Result<(), AllocError>
    ensures { Pushes result text.old text.new (word.now ++ register_text register) }
{
    write!(text, "{word} r{register}")
}

/// Adds a vote for the value of a leader.
fn push_vote(
    text: &mut String,
    source: Source,
    leader: Proc,
    by: &Messages,
) -> Result<(), AllocError>
    ensures { Pushes result text.old text.new (deed_text (Votes source leader by.now)) }
{
    push_source(text, " votes ", source)?;
    push_number(text, " for leader ", u32::from(leader.number()))?;
    push_by(text, by)
}

/// Adds that the input was settled.
fn push_input(text: &mut String, value: Val) -> Result<(), AllocError>
    ensures { Pushes result text.old text.new (deed_text (SettlesInput value)) }
{
    let value = value.number();
    write!(text, " settles {value}, its input")
}

/// Adds what a step did, from a space on. Only out of memory is an error.
pub(crate) fn push_deed(text: &mut String, deed: &Deed) -> Result<(), AllocError>
    ensures { Pushes result text.old text.new (deed_text deed.now) }
{
    match deed {
        Deed::Nothing => Ok(()),
        Deed::Round(round) => push_number(text, " round ", *round),
        Deed::Votes { source, leader, by } => push_vote(text, *source, *leader, by),
        Deed::VotesNone { by } => {
            text.push_str(" votes none")?;
            push_by(text, by)
        }
        Deed::Settles { source, by } => {
            push_source(text, " settles ", *source)?;
            push_by(text, by)
        }
        Deed::Adopts { source, by } => {
            push_source(text, " adopts ", *source)?;
            push_by(text, by)
        }
        Deed::Keeps { value, by } => {
            push_number(text, " keeps ", value.number())?;
            push_by(text, by)
        }
        Deed::Learns(source) => push_source(text, " learns ", *source),
        Deed::SettlesRegister { value, register } => {
            push_number(text, " settles ", value.number())?;
            push_register(text, " of", *register)
        }
        Deed::SettlesInput(value) => push_input(text, *value),
        Deed::GivesUp { round, register } => {
            push_number(text, " gives up round ", *round)?;
            push_register(text, " by", *register)
        }
        Deed::Carries(round) => push_number(text, " carries round ", *round),
    }
}
