//! What one process sent.

ghost use Rattle.std.specs.Prelude.{◌≡◌, ◌<◌, ◌≤◌, length, [], ◌∷◌, ◌++◌, OnOk, OnErr, slice_get};
ghost use Rattle.std.specs.Option.{option_copied};
ghost use Rattle.cdb_base.specs.Positions.{without_last};
ghost use Rattle.cdb_base.specs.Limits.{MAX_STEPS};

use cdb_base::{NoMemory, Payload, Val};
use std::alloc::Global;
use std::marker::Model;

/// The payloads that one process sent, in order: at most 9,999.
#[derive(Drop)]
pub struct Outbox {
    payloads: Vec<Payload>,
}

impl Model for Outbox {
    ghost use Rattle.std.specs.Prelude.{◌≤◌, List, length};
    ghost use Rattle.cdb_base.specs.Limits.{MAX_STEPS};
    ghost use Rattle.cdb_base.specs.declared.payload.Payload.{Payload};

    ghost Value = { List Payload };

    ghost view = { λ x. x.payloads.items };

    ghost invariant = { λ x. length x.payloads.items ≤ MAX_STEPS };
}

impl Outbox {
    /// The payloads of a process that has sent none.
    pub fn new(alloc: Global) -> Self
        ensures { result ≡ [] }
    {
        Outbox {
            payloads: Vec::new(alloc),
        }
    }

    /// How many payloads were sent: at most 9,999.
    pub fn count(&self) -> u16
        ensures value { result ≡ length self.now }
        ensures limit { result ≤ MAX_STEPS }
    {
        self.payloads.len() as u16
    }

    /// Adds a payload, where there are fewer than 9,999. After `NoMemory` nothing was added.
    pub fn push(&mut self, payload: Payload) -> Result<(), NoMemory>
        requires { length self.old < MAX_STEPS }
        ensures ok { OnOk result (self.new ≡ self.old ++ payload ∷ []) }
        ensures err { OnErr result (self.new ≡ self.old) }
    {
        // Names the types that a payload holds: the check finds them in no other part of the function.
        let _none: Option<Val> = None;
        self.payloads.push(payload)?;
        Ok(())
    }

    /// Takes the last payload back, if there is one.
    pub fn pop(&mut self)
        ensures { self.new ≡ without_last self.old }
    {
        let _ = self.payloads.pop();
    }

    /// The payload at that position, from 0.
    pub fn get(&self, position: usize) -> Option<&Payload>
        ensures { option_copied result ≡ slice_get self.now position }
    {
        self.payloads.get(position)
    }
}
