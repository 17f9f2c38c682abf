//! The processes of a run, by their numbers.

ghost use Rattle.std.specs.Prelude.{◌≡◌, ◌≤◌, ◌↔◌, None, Some, IsTrue, if◌then◌else◌};
ghost use Rattle.cdb_base.specs.Limits.{MAX_PROCESSES};
ghost use Rattle.cdb_rules.specs.Refusals.{NamesProcess};
ghost use Rattle.cdb_rules.specs.Step.{is_among};

use cdb_base::{Kind, Proc};

/// The process of that number, where it is one of processes 1 to `n`.
pub(crate) fn process_among(n: u8, number: u32) -> Option<Proc>
    requires { n ≤ MAX_PROCESSES }
    ensures { result ≡ (if is_among n number then Some number else None) }
{
    Proc::from_number(number).filter(|p| p.number() <= n)
}

/// Whether the leader that a query names, where the step is one, is one of processes 1 to `n`.
pub(crate) fn names_process(n: u8, kind: &Kind) -> bool
    ensures { IsTrue result ↔ NamesProcess n kind.now }
{
    match kind {
        Kind::Query(leader) => leader.number() <= n,
        _ => true,
    }
}
