//! A script of commands, one a line.

ghost use Rattle.std.specs.Prelude.{◌≡◌, IfOk, map};
ghost use Rattle.cdb_rules.specs.Refusals.{act_for};
ghost use Rattle.cdb_slice.specs.Scripts.{command_for, line_text, lines_text, script_text};
ghost use Rattle.cdb_text.specs.Pushes.{Pushes};

use cdb_base::{Act, Event, Kind, NoMemory, Reg};
use cdb_commands::{Command, Stop, View};
use cdb_text::push_command;
use std::alloc::{AllocError, Global};

/// The act that names a step of that kind.
fn act_for(kind: &Kind) -> Act
    ensures { result ≡ act_for kind.now }
{
    match *kind {
        Kind::Query(leader) => Act::Query(Some(u32::from(leader.number()))),
        Kind::Recv(s, m) => Act::Recv(u32::from(s.number()), u32::from(m)),
        Kind::Learn => Act::Learn,
        Kind::Crash => Act::Crash,
        Kind::Send(_) | Kind::Read(_) | Kind::Write(_) | Kind::Local => Act::Go,
    }
}

/// The command that takes an event.
pub fn command_for(event: &Event) -> Command
    ensures { result ≡ command_for event.now }
{
    match event {
        Event::Step { p, kind, .. } => Command::Step(u32::from(p.number()), act_for(kind)),
        Event::Lost(copy) => Command::Lose(
            u32::from(copy.msg.s.number()),
            u32::from(copy.msg.m),
            u32::from(copy.to.number()),
        ),
    }
}

/// The commands that take these events.
pub fn commands_for(alloc: Global, events: &[Event]) -> Result<Vec<Command>, NoMemory>
    ensures { IfOk result (λ commands. commands.items ≡ map command_for events.now) }
{
    // Names each type inside a command: the checker asks for that where a command is passed for a type parameter.
    let _parts: (Option<Stop>, Option<Act>, Option<View>, Option<Reg>) = (None, None, None, None);
    let mut commands = Vec::with_capacity(alloc, events.len())?;
    for event in events {
        commands.push(command_for(event))?;
    }
    Ok(commands)
}

/// Adds the line of a command.
fn push_line(text: &mut String, command: &Command) -> Result<(), AllocError>
    ensures { Pushes result text.old text.new (line_text command.now) }
{
    push_command(text, command)?;
    text.push('\n')
}

/// Adds a line for each command, in order.
fn push_lines(text: &mut String, commands: &[Command]) -> Result<(), AllocError>
    ensures { Pushes result text.old text.new (lines_text commands.now) }
{
    for command in commands {
        push_line(text, command)?;
    }
    Ok(())
}

/// The script of these commands.
pub fn lines_of(alloc: Global, commands: &[Command]) -> Result<Vec<u8>, NoMemory>
    ensures { IfOk result (λ text. text.items ≡ lines_text commands.now) }
{
    let mut text = String::new(alloc);
    push_lines(&mut text, commands)?;
    Ok(text.into_bytes())
}

/// The script of these events.
pub fn script_of(alloc: Global, events: &[Event]) -> Result<Vec<u8>, NoMemory>
    ensures { IfOk result (λ text. text.items ≡ script_text events.now) }
{
    let commands = commands_for(alloc, events)?;
    lines_of(alloc, commands.as_slice())
}
