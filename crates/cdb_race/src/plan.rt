//! What each seat of a race is to do.
ghost use Rattle.std.specs.Prelude.{◌≡◌, ◌<◌, ◌≤◌};
ghost use Rattle.cdb_base.specs.Limits.{MAX_SEATS};
ghost use Rattle.cdb_race.specs.Plans.{seats_of, script_of};

use cdb_control::Command;
use std::marker::Model;

/// A script, which a contract sees as its commands.
#[derive(Drop)]
pub struct Script {
    commands: Vec<Command>,
}

impl Model for Script {
    ghost use Rattle.std.specs.Prelude.{List};
    ghost use Rattle.cdb_commands.specs.declared.command.Command.{Command};

    ghost Value = { List Command };

    ghost view = { λ s. s.commands.items };
}

impl Script {
    /// The script of these commands.
    pub fn new(commands: Vec<Command>) -> Script
        ensures { result ≡ commands.items }
    {
        Script { commands }
    }

    /// Its commands, in order.
    pub fn commands(&self) -> &[Command]
        ensures { result.now ≡ self.now }
    {
        self.commands.as_slice()
    }
}

/// What the seats of a race are to do: each of the first drives the process of its number for this many
/// turns, and each of the others serves a script.
#[derive(Clone, Copy)]
pub(crate) struct Plan<'a> {
    pub(crate) processes: u8,
    pub(crate) turns: u32,
    pub(crate) scripts: &'a [Script],
}

impl<'a> Plan<'a> {
    /// How many seats there are.
    pub(crate) fn seats(&self) -> u8
        requires { seats_of self.now ≤ MAX_SEATS }
        ensures { result ≡ seats_of self.now }
    {
        self.processes + self.scripts.len() as u8
    }

    /// The script of a seat after those of the processes.
    pub(crate) fn script(&self, seat: u8) -> &'a Script
        requires behind { self.now.processes < seat }
        requires planned { seat ≤ seats_of self.now }
        ensures { result.now ≡ script_of self.now seat }
    {
        &self.scripts[usize::from(seat - self.processes - 1)]
    }
}
