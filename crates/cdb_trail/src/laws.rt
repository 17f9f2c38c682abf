//! That a trail leads to each decision of a valid history, and no other, by either algorithm.

ghost use Rattle.cdb_agreement.specs.Algorithms.{leader_machine, alpha_machine};
ghost use Rattle.cdb_alpha.specs.Machine.{alpha_table};
ghost use Rattle.cdb_leader.specs.Machine.{leader_table};
ghost use Rattle.cdb_setup.specs.Parts.{Parts};
ghost use Rattle.cdb_trail.specs.AlphaFlow.{alpha_flows};
ghost use Rattle.cdb_trail.specs.Flow.{FlowsAreTrue};
ghost use Rattle.cdb_trail.specs.LeaderFlow.{leader_flows};
ghost use Rattle.cdb_trail.specs.Trails.{EachDecisionHasATrail, TrailsAreUnique};

/// Of both machines: what a step sets is what it takes, and a spot that it does not set keeps its value.
#[tactic(auto, using(crate::proofs::Promised::leader_true, crate::proofs::Promised::alpha_true))]
pub fn flows_are_true()
    ensures leader { (setup : Parts) →
        FlowsAreTrue (leader_machine setup) leader_flows setup.inputs }
    ensures alpha { (setup : Parts) →
        FlowsAreTrue (alpha_machine setup) alpha_flows setup.inputs }
{}

/// To each decision of the leader-based algorithm one trail leads, whatever the quorum: it begins at the input of a
/// process, which is the decided value, and each step on it moves that value and has led to the decision.
pub fn leader_decisions_have_trails()
    ensures has_one { (setup : Parts) →
        EachDecisionHasATrail (leader_machine setup) leader_flows setup.inputs leader_table.decision }
    ensures no_other { (setup : Parts) →
        TrailsAreUnique (leader_machine setup) leader_flows setup.inputs }
{}

/// To each decision of Alpha one trail leads, likewise.
pub fn alpha_decisions_have_trails()
    ensures has_one { (setup : Parts) →
        EachDecisionHasATrail (alpha_machine setup) alpha_flows setup.inputs alpha_table.decision }
    ensures no_other { (setup : Parts) →
        TrailsAreUnique (alpha_machine setup) alpha_flows setup.inputs }
{}
