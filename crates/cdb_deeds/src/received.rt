//! The names of the messages that each process has received.

ghost use Rattle.std.specs.Prelude.{◌≡◌, ◌++◌, ◌∷◌, [], List, IfOk, OnOk};
ghost use Rattle.cdb_base.specs.declared.event.Event.{Event};
ghost use Rattle.cdb_deeds.specs.Deeds.{received_names, received_by_each};

use cdb_base::{Event, Kind, MsgName, NoMemory, Proc};
use std::alloc::Global;
use std::marker::Model;

/// Of each process that a run can have the names of the messages that it has received, in the order of receipt.
#[derive(Drop)]
pub struct ReceivedNames {
    of_processes: Vec<Vec<MsgName>>,
}

impl Model for ReceivedNames {
    ghost use Rattle.std.specs.Prelude.{◌≡◌, List, length, map};
    ghost use Rattle.cdb_base.specs.declared.name.MsgName.{MsgName};

    ghost Value = { List (List MsgName) };

    ghost view = { λ x. map (λ row. row.items) x.of_processes.items };

    ghost invariant = { λ x. length x.of_processes.items ≡ 9 };
}

impl ReceivedNames {
    /// Of a run in which nothing has happened. `NoMemory` if an allocation fails.
    pub fn none(alloc: Global) -> Result<Self, NoMemory>
        ensures { IfOk result (λ names. names ≡ received_by_each []) }
    {
        let mut of_processes = Vec::new(alloc);
        for _i in 0..9_usize {
            of_processes.push(Vec::new(alloc))?;
        }
        Ok(ReceivedNames { of_processes })
    }

    /// Adds what an event receives, if it receives something. `NoMemory` if an allocation fails.
    pub fn add(&mut self, event: &Event) -> Result<(), NoMemory>
        ensures { (history : List Event) → self.old ≡ received_by_each history
            → OnOk result (self.new ≡ received_by_each (history ++ event.now ∷ [])) }
    {
        if let Event::Step { p, kind, .. } = event {
            if let Kind::Recv(s, m) = *kind {
                let names = &mut self.of_processes[p.index()];
                names.push(MsgName { s, m })?;
            }
        }
        Ok(())
    }

    /// Those of process `p`.
    pub fn of(&self, p: Proc) -> &[MsgName]
        ensures { (history : List Event) → self.now ≡ received_by_each history
            → result.now ≡ received_names p history }
    {
        &self.of_processes[p.index()]
    }
}
