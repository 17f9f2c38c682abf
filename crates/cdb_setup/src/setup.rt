//! A setup, and what can be asked of it.

ghost use Rattle.std.specs.Cmp.Lexicographic.{pointwise};
ghost use Rattle.std.specs.Prelude.{◌≡◌, ◌==◌, ◌⊎◌, ◌≤◌, ◌<◌, Some, Ok, Err, length, IfSome, IfOk};
ghost use Rattle.std.specs.Option.{option_copied};
ghost use Rattle.cdb_base.specs.Positions.{nth};
ghost use Rattle.cdb_setup.specs.Parts.{lists_in, number_in_list};

use crate::fault::SetupFault;
use crate::reading;
use cdb_base::{NoMemory, Proc, Val};
use std::alloc::Global;
use std::marker::Model;

/// The algorithm that the processes follow.
#[derive(Clone, Copy, Debug, PartialEq, Eq)]
pub enum Algorithm {
    /// The leader-based algorithm, which works by messages.
    Leader,
    /// The algorithm that works by registers.
    Alpha,
}

/// The setup of a run: the algorithm, how many processes there are, the quorum, an input for each
/// process, for each process the answers of the oracle to its queries, and the version. A contract
/// sees it as one record of these parts, each in its range.
#[derive(Debug, Drop)]
pub struct Setup {
    pub(crate) version: u8,
    pub(crate) algorithm: Algorithm,
    pub(crate) processes: u8,
    pub(crate) quorum: u8,
    pub(crate) inputs: Vec<Val>,
    pub(crate) answers: Vec<Vec<Proc>>,
}

impl Model for Setup {
    ghost use Rattle.cdb_setup.specs.Parts.{Parts, AreInRange};

    ghost Value = { Parts };

    ghost use Rattle.cdb_setup.specs.Seen.{parts_of};

    ghost view = { parts_of };

    ghost invariant = { λ fields. AreInRange (parts_of fields) };
}

impl Setup {
    ghost use Rattle.cdb_base.specs.Limits.{MAX_PROCESSES};
    ghost use Rattle.cdb_setup.specs.Parts.{Parts, IsWithin, AreInRange, AreValues};
    ghost use Rattle.cdb_setup.specs.Parts.{AreListsOfProcesses, lists_of, setup_with, answer_of};
    ghost use Rattle.cdb_setup.specs.Faults.{IfFault};
    ghost use Rattle.cdb_setup.specs.Format.{Encodes, longest};
    ghost use Rattle.cdb_base.specs.Memory.{no_memory};
    ghost use Rattle.cdb_setup.specs.Order.{IsFirstFault};

    /// The setup of which the bytes are the text.
    ///
    /// Bytes that are the text of none have the first fault that holds of them: `TooLong` is looked for
    /// first, then `NotJson` to `BadOracle` by number, then `BadVersion`. `NoMemory` if an allocation
    /// fails; a text that is too long needs none. An error leaves nothing allocated.
    ///
    /// Promise: Bytes are read as a setup exactly where they are one in JSON; else the first fault that holds is
    /// returned, of a text that is too long always that.
    pub fn read(alloc: Global, bytes: &[u8]) -> Result<Setup, SetupFault>
        // What is returned is the setup of which the bytes are the text.
        ensures found { IfOk result (λ setup. Encodes bytes.now setup) }
        // That setup is returned, unless memory runs out.
        ensures only { (setup : Parts) → Encodes bytes.now setup
            → (result ≡ Ok setup) ⊎ (result ≡ Err (SetupFault.NoMemory no_memory)) }
        // Any other fault is the first of the bytes.
        ensures fault { IfFault result (λ fault. IsFirstFault fault bytes.now) }
        // A text that is too long is refused as such, and never as out of memory.
        ensures too_long { longest < length bytes.now → result ≡ Err SetupFault.TooLong }
    {
        reading::read(alloc, bytes)
    }

    /// The setup with these parts: version 1 or 2, an input for each of 1 to 9 processes, a quorum
    /// from 1 to their number, and for each process a list of answers, which are processes of the
    /// setup. The `k`-th item of the `p`-th list is the answer to the `k`-th query of process `p`.
    /// `NoMemory` if an allocation fails, and nothing is left allocated.
    pub fn from_parts(
        alloc: Global,
        version: u8,
        algorithm: Algorithm,
        quorum: u8,
        inputs: &[Val],
        answers: &[&[Proc]],
    ) -> Result<Setup, NoMemory>
        requires version { IsWithin 1 2 version }
        requires processes { IsWithin 1 MAX_PROCESSES (length inputs.now) }
        requires quorum { IsWithin 1 (length inputs.now) quorum }
        requires inputs { AreValues inputs.now }
        requires a_list_each { length answers.now ≡ length inputs.now }
        requires answers { AreListsOfProcesses (length inputs.now) (lists_of answers.now) }
        ensures { IfOk result (λ setup. setup
            ≡ setup_with version algorithm quorum inputs.now (lists_of answers.now)) }
    {
        let mut lists = Vec::new(alloc);
        for list in answers {
            lists.push(Vec::from_slice(alloc, list)?)?;
        }
        Ok(Setup {
            version,
            algorithm,
            processes: inputs.len() as u8,
            quorum,
            inputs: Vec::from_slice(alloc, inputs)?,
            answers: lists,
        })
    }

    /// The version, 1 or 2: in version 2 copies of messages can be lost, in version 1 none can.
    pub fn version(&self) -> u8
        ensures { result ≡ self.now.version }
    {
        self.version
    }

    /// The algorithm that each process follows.
    pub fn algorithm(&self) -> Algorithm
        ensures { result ≡ self.now.algorithm }
    {
        self.algorithm
    }

    /// How many processes there are, from 1 to 9. They are numbered from 1.
    pub fn n(&self) -> u8
        ensures value { result ≡ self.now.processes }
        // The parts of every setup are in range.
        ensures ranges { AreInRange self.now }
    {
        self.processes
    }

    /// How many processes make a quorum, from 1 to as many as there are.
    pub fn q(&self) -> u8
        ensures { result ≡ self.now.quorum }
    {
        self.quorum
    }

    /// The input of process `p`, which is one of 1 to `n`.
    pub fn input(&self, p: Proc) -> Val
        requires { p ≤ self.now.processes }
        ensures { nth self.now.inputs p ≡ Some result }
    {
        self.inputs[p.index()]
    }

    /// The answer to the `k`-th query of process `p`, counted from 1: the `k`-th of its list. There is
    /// none beyond the list, for `k` 0, and for a process that the setup does not have.
    pub fn answer(&self, p: Proc, k: u32) -> Option<Proc>
        ensures value { result ≡ answer_of self.now p k }
        ensures process { IfSome result (IsWithin 1 self.now.processes) }
    {
        answer_at(self.answers.as_slice(), p.number() as usize, k as usize)
    }

    /// An equal setup. `NoMemory` if an allocation fails, and nothing is left allocated.
    pub fn copy(&self, alloc: Global) -> Result<Setup, NoMemory>
        ensures { IfOk result (λ setup. setup ≡ self.now) }
    {
        let inputs = Vec::from_slice(alloc, self.inputs.as_slice())?;
        let answers = copy_lists(alloc, self.answers.as_slice())?;
        Ok(Setup {
            version: self.version,
            algorithm: self.algorithm,
            processes: self.processes,
            quorum: self.quorum,
            inputs,
            answers,
        })
    }
}

/// Two setups are equal where their parts are.
impl PartialEq for Setup {
    ghost use Rattle.std.specs.Prelude.{IsTrue, ◌↔◌};
    ghost use Rattle.std.specs.Cmp.{partial_equiv_from_equiv};
    ghost use Rattle.cdb_setup.specs.Equal.{are_equal, are_equal_equiv};

    ghost eq = { are_equal };

    ghost laws = { partial_equiv_from_equiv are_equal_equiv };

    fn eq(&self, other: &Setup) -> bool
        ensures eq { result ≡ are_equal self.now other.now }
        ensures parts { IsTrue result ↔ (self.now ≡ other.now) }
    {
        self.version == other.version
            && self.algorithm == other.algorithm
            && self.processes == other.processes
            && self.quorum == other.quorum
            && self.inputs == other.inputs
            && are_same_lists(self.answers.as_slice(), other.answers.as_slice())
    }
}

impl Eq for Setup {
    ghost use Rattle.cdb_setup.specs.Equal.{are_equal_equiv};

    ghost laws = { are_equal_equiv };
}

/// Whether the lists of answers are the same.
fn are_same_lists(lists: &[Vec<Proc>], others: &[Vec<Proc>]) -> bool
    ensures { result ≡ pointwise (pointwise ◌==◌) (lists_in lists.now) (lists_in others.now) }
{
    lists == others
}

/// The same lists of answers.
fn copy_lists(alloc: Global, lists: &[Vec<Proc>]) -> Result<Vec<Vec<Proc>>, NoMemory>
    ensures { IfOk result (λ copies. lists_in copies.items ≡ lists_in lists.now) }
{
    let mut copies = Vec::new(alloc);
    for list in lists {
        copies.push(Vec::from_slice(alloc, list.as_slice())?)?;
    }
    Ok(copies)
}

/// The k-th answer of the p-th list, both counted from 1.
fn answer_at(lists: &[Vec<Proc>], p: usize, k: usize) -> Option<Proc>
    ensures { result ≡ number_in_list (lists_in lists.now) p k }
{
    let answers = nth(lists, p)?;
    nth(answers.as_slice(), k).copied()
}

/// The k-th item, counted from 1.
fn nth<T>(items: &[T], k: usize) -> Option<&T>
    ensures { option_copied result ≡ nth items.now k }
{
    if k == 0 {
        return None;
    }
    items.get(k - 1)
}
