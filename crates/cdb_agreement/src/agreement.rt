//! Agreement: no two decisions that stand in a run differ, and validity: each was the input of a process,
//! whatever the oracle answers, whoever crashes, whatever is lost, and in whatever order the events stand.
//! Each function does nothing: its contract is the law.

ghost use Rattle.std.specs.Prelude.{◌≡◌, [], ◌∷◌, ◌++◌, Some};
ghost use Rattle.cdb_agreement.specs.Laws.{ForSetups, ForMajorities, ForValid, InReached, DecisionsAgree};
ghost use Rattle.cdb_agreement.specs.Laws.{DecisionsAreProposed};
ghost use Rattle.cdb_agreement.specs.Rounds.{LeaderMessages, LeaderRounds, AlphaRounds};
ghost use Rattle.cdb_agreement.specs.WorkedRuns.{leader_steps, leader_decisions, alpha_steps, alpha_decisions};
ghost use Rattle.cdb_alpha.specs.Machine.{alpha_table};
ghost use Rattle.cdb_leader.specs.Machine.{leader_table};
ghost use Rattle.cdb_rules.specs.Agreement.{AllAgree, AreProposed, HasMajorityIfNeeded};
ghost use Rattle.cdb_agreement.specs.Algorithms.{leader_machine, alpha_machine, rules};
ghost use Rattle.cdb_setup.specs.Parts.{Parts};

/// No two standing decisions of the leader-based algorithm differ, where a quorum is more than half of
/// the processes.
pub fn leader_decisions_agree()
    ensures { ForMajorities (λ setup.
        DecisionsAgree (leader_machine setup) leader_table.decision) }
{}

/// No two standing decisions of Alpha differ, whatever the quorum.
pub fn alpha_decisions_agree()
    ensures { ForSetups (λ setup. DecisionsAgree (alpha_machine setup) alpha_table.decision) }
{}

/// The decisions that a valid history shows agree, by the rules of its setup.
pub fn shown_decisions_agree()
    ensures { ForValid (λ setup history. HasMajorityIfNeeded setup →
        AllAgree ((rules setup).decisions history)) }
{}

/// Each standing decision of the leader-based algorithm was the input of a process, whatever the quorum.
pub fn leader_decisions_are_proposed()
    ensures { ForSetups (DecisionsAreProposed leader_machine leader_table.decision) }
{}

/// Each standing decision of Alpha was the input of a process.
pub fn alpha_decisions_are_proposed()
    ensures { ForSetups (DecisionsAreProposed alpha_machine alpha_table.decision) }
{}

/// The decisions that a valid history shows were inputs of processes, by the rules of its setup.
pub fn shown_decisions_are_proposed()
    ensures { ForValid (λ setup history. AreProposed setup ((rules setup).decisions history)) }
{}

/// By either algorithm a process alone decides its input: the laws above are about decisions that are
/// reached. Where a quorum is not more than half of the processes, two processes of the leader-based
/// algorithm decide two values.
#[tactic(auto, using(crate::proofs::Worked::leader, crate::proofs::Worked::two_values, crate::proofs::Worked::alpha))]
pub fn worked_runs()
    ensures leader { leader_decisions (7 ∷ []) (leader_steps 1) ≡ Some ((1, 7) ∷ []) }
    ensures two_values { leader_decisions (5 ∷ 6 ∷ []) (leader_steps 1 ++ leader_steps 2)
        ≡ Some ((1, 5) ∷ (2, 6) ∷ []) }
    ensures alpha { alpha_decisions (7 ∷ []) alpha_steps ≡ Some ((1, 7) ∷ []) }
{}

/// In each state that a valid history of the leader-based algorithm reaches, a process has sent one message of
/// each phase a round, what was received was sent, and what is sent or learnt as a decision a quorum voted in one
/// round. Where a quorum is a majority the votes of a round have one value, and what is decided in it is the estimate
/// of all later rounds.
#[tactic(auto, using(crate::proofs::LeaderHistories::leader_messages, crate::proofs::LeaderHistories::leader_rounds))]
pub fn leader_rounds()
    ensures messages { (setup : Parts) →
        InReached (leader_machine setup) (LeaderMessages setup.quorum) }
    ensures rounds { ForMajorities (λ setup.
        InReached (leader_machine setup) (LeaderRounds setup.quorum)) }
{}

/// In each state that a valid history of Alpha reaches, register i is written by process i alone and shows what it
/// wrote last, no round in it ever falls, rounds are of one process, whoever settles a value has read every register in
/// its round, and what is decided is what every write of a later round wrote.
#[tactic(auto, using(crate::proofs::AlphaHistories::alpha_rounds))]
pub fn alpha_rounds()
    ensures { ForSetups (λ setup. InReached (alpha_machine setup)
        (AlphaRounds (alpha_machine setup) setup.processes)) }
{}
