//! An index of the first messages of an inbox: for each round and sender the first message of each phase, and for each
//! sender its first decision.

ghost use Rattle.std.specs.Prelude.{◌≡◌, ◌<◌, length, List, [], ◌∷◌, ◌++◌, OnOk, OnErr};
ghost use Rattle.cdb_leader.specs.declared.inbox.Received.{Received};
ghost use Rattle.cdb_leader.specs.Index.{known, IsRowOf, IsIndexOf};

use crate::firsts::Firsts;
use crate::inbox::Received;
use crate::row::Row;
use crate::spot::KNOWN;
use cdb_base::{NoMemory, Proc};
use std::alloc::Global;
use std::collections::HashMap;

/// Where in an inbox the first messages of each kind stand: a row for each round that one came of,
/// and the first decisions. Beside them stands the row of all other rounds, which keeps nothing.
#[derive(Drop)]
pub struct Index {
    rows: HashMap<u32, Row>,
    pub(crate) decisions: Firsts,
    no_row: Row,
}

impl Index {
    /// The index of an empty inbox.
    pub(crate) fn new(alloc: Global) -> Self
        ensures { IsIndexOf result [] }
    {
        Index {
            rows: HashMap::new(alloc),
            decisions: Firsts::new(),
            no_row: Row::new(),
        }
    }

    /// What is kept of that round.
    pub(crate) fn row(&self, round: u32) -> &Row
        ensures { (inbox : List Received) → IsIndexOf self.now inbox
            → IsRowOf round result.now inbox }
    {
        match self.rows.get(&round) {
            Some(row) => row,
            None => &self.no_row,
        }
    }

    /// Notes the message that comes after those, which are few enough that the index knows it.
    fn note_known(&mut self, messages: &[Received], message: &Received) -> Result<(), NoMemory>
        requires { length messages.now < KNOWN }
        ensures ok { IsIndexOf self.old messages.now
            → OnOk result (IsIndexOf self.new (messages.now ++ message.now ∷ [])) }
        ensures err { IsIndexOf self.old messages.now
            → OnErr result (IsIndexOf self.new messages.now) }
    {
        match message.round() {
            Some(round) => {
                if let Some(row) = self.rows.get_mut(&round) {
                    row.note(round, messages, message);
                    return Ok(());
                }
                let mut row = self.no_row;
                row.note(round, messages, message);
                self.rows.insert(round, row)?;
            }
            None => self.decisions.note(message.from, messages.len()),
        }
        Ok(())
    }

    /// Notes the message that comes after those. Where an allocation fails, the index is as it was.
    pub(crate) fn note(&mut self, messages: &[Received], message: &Received) -> Result<(), NoMemory>
        ensures ok { IsIndexOf self.old (known messages.now)
            → OnOk result (IsIndexOf self.new (known (messages.now ++ message.now ∷ []))) }
        ensures err { IsIndexOf self.old (known messages.now)
            → OnErr result (IsIndexOf self.new (known messages.now)) }
    {
        if messages.len() < KNOWN {
            self.note_known(messages, message)
        } else {
            Ok(())
        }
    }

    /// Forgets the message that came after those. It allocates nothing.
    pub(crate) fn forget(&mut self, messages: &[Received], message: &Received)
        ensures { IsIndexOf self.old (known (messages.now ++ message.now ∷ []))
            → IsIndexOf self.new (known messages.now) }
    {
        if messages.len() < KNOWN {
            self.forget_known(messages, message);
        }
    }

    /// Forgets the message that came after those, if the index knows it.
    fn forget_known(&mut self, messages: &[Received], message: &Received)
        ensures { IsIndexOf self.old (messages.now ++ message.now ∷ [])
            → IsIndexOf self.new messages.now }
    {
        match message.round() {
            Some(round) => {
                if let Some(row) = self.rows.get_mut(&round) {
                    row.forget(round, messages, message);
                }
            }
            None => self.decisions.forget(message.from, messages.len()),
        }
    }
}
