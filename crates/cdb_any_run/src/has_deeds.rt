//! What the next event of a run does, by the machine of its algorithm.

ghost use Rattle.std.specs.Prelude.{◌≡◌, IfOk};
ghost use Rattle.cdb_deeds.specs.Deeds.{deed_by, received_by_each};
ghost use Rattle.cdb_setup.specs.declared.setup.Algorithm.TheVariants.{Leader as by_leader, Alpha as by_alpha};

use crate::any::{AnyRun, ByMachine};
use cdb_alpha::Alpha;
use cdb_base::{Event, Kind, NoMemory, Proc};
use cdb_deeds::{Deed, HasDeeds, ReceivedNames, alpha_deed, leader_deed};
use cdb_leader::Leader;
use cdb_run::Run;
use std::alloc::Global;

/// What a step of the leader machine does, which process `p` takes next.
fn deed_by_leader(
    alloc: Global,
    run: &Run<Leader>,
    names: &ReceivedNames,
    p: Proc,
    kind: &Kind,
) -> Result<Deed, NoMemory>
    requires { names.now ≡ received_by_each run.now.history }
    ensures { IfOk result (λ deed. deed ≡ deed_by by_leader run.now p kind.now) }
{
    match run.process(u32::from(p.number())) {
        Some(p) => leader_deed(alloc, run.local(p), names.of(p), kind),
        None => Ok(Deed::Nothing),
    }
}

/// What a step of the Alpha machine does, which process `p` takes next.
fn deed_by_alpha(run: &Run<Alpha>, p: Proc, kind: &Kind) -> Deed
    ensures { result ≡ deed_by by_alpha run.now p kind.now }
{
    match run.process(u32::from(p.number())) {
        Some(p) => alpha_deed(run.local(p), p, kind),
        None => Deed::Nothing,
    }
}

impl HasDeeds for AnyRun {
    fn deed(&self, alloc: Global, names: &ReceivedNames, event: &Event) -> Result<Deed, NoMemory> {
        match event {
            Event::Step { p, kind, .. } => match &self.run {
                ByMachine::Leader(run) => deed_by_leader(alloc, run, names, *p, kind),
                ByMachine::Alpha(run) => Ok(deed_by_alpha(run, *p, kind)),
            },
            Event::Lost(_) => Ok(Deed::Nothing),
        }
    }
}
