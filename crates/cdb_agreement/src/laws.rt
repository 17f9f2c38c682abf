//! What holds of the histories of any machine. Each function does nothing: its contract is the law.

ghost use Rattle.std.specs.Prelude.{◌≡◌, ℕ, ◌+◌, ◌≤◌, List, [], ◌∷◌, ◌++◌, length, reverse, Ok, Err};
ghost use Rattle.cdb_base.specs.Limits.{MAX_PROCESSES};
ghost use Rattle.cdb_agreement.specs.Laws.{InValid, ForTwo, ForReached, ForFree, ForConsequences, ForNamed};
ghost use Rattle.cdb_agreement.specs.Laws.{ForFreeNamed, ForNeeded, ForNew, ForTaken, ForAbsent, ForUndone};
ghost use Rattle.cdb_agreement.specs.Laws.{ForUndoneIn, ForRolledBack, ForRolledBackIn, LeadAlike, LeadsBack};
ghost use Rattle.cdb_agreement.specs.Laws.{AllLeadBack, ReachOneState, taken_back, IsUndone, IsRolledBackTo};
ghost use Rattle.cdb_agreement.specs.Laws.{NumbersRise, NamesDiffer, AreNamed, LossesFollowSends, LostStayUnreceived};
ghost use Rattle.cdb_agreement.specs.StepNumbers.{AreStepsNumbered, AreSendsNumbered};
ghost use Rattle.cdb_causal.specs.Causality.{IsFree};
ghost use Rattle.cdb_causal.specs.Dependence.{depends};
ghost use Rattle.cdb_causal.specs.Exchange.{IsExchange, IsExchanged, IsEachOnce};
ghost use Rattle.cdb_causal.specs.Reach.{IsCommuting};
ghost use Rattle.cdb_causal.specs.Rollback.{without, remaining};
ghost use Rattle.cdb_causal.specs.StandingEvents.{IsStanding};
ghost use Rattle.cdb_agreement.specs.Algorithms.{rules};
ghost use Rattle.cdb_rules.specs.Lawful.{KeepHistories};
ghost use Rattle.cdb_rules.specs.OwnSteps.{own_of, own_steps};
ghost use Rattle.cdb_agreement.specs.SameState.{ReachSameState};
ghost use Rattle.cdb_rules.specs.State.{Machine};
ghost use Rattle.cdb_rules.specs.Undo.{undo_of, rollback_of};
ghost use Rattle.cdb_rules.specs.Step.{after, IsEnabled, IsValid, state_of};
ghost use Rattle.cdb_setup.specs.Parts.{Parts, AreInRange};

use cdb_base::{Event, Refusal};

/// Two events that do not depend on each other may be taken in either order, from every state: both
/// orders lead to the same state, or in neither order may both be taken.
#[tactic(auto, using(cdb_rules::proofs::Taken::after_commutes))]
pub fn independent_events_commute<L>()
    ensures { (machine : Machine L) → IsCommuting (after machine) depends }
{}

/// Two neighbours that do not depend on each other may be exchanged: the one history is valid where
/// the other is, and both reach the same state.
pub fn exchange<L>()
    ensures { ForTwo L (λ machine one other.
        IsExchange depends one other → LeadAlike machine one other) }
{}

/// Histories that are equal up to exchange reach the same state.
#[tactic(auto, using(cdb_rules::proofs::Histories::fold_exchanged))]
pub fn exchanged_histories<L>()
    ensures { ForTwo L (λ machine one other.
        IsExchanged depends one other → LeadAlike machine one other) }
{}

/// A free event may be undone. What remains is valid, the event is enabled there, and taking it
/// again leads back to the state that the history reached.
#[tactic(auto, using(cdb_rules::proofs::Histories::undo_valid, cdb_rules::proofs::Histories::undo_again))]
pub fn undo<L>()
    ensures valid { ForFree L (λ machine history event left. IsValid machine left) }
    ensures enabled { ForFree L (λ machine history event left.
        IsEnabled machine (state_of machine left) event) }
    ensures again { ForFree L (λ machine history event left.
        LeadsBack machine left event history) }
{}

/// A standing event is undone exactly where no standing event depends on it; else the first that
/// does is named. A name that does not stand is refused, and so is one with a process that is not
/// there. What a granted undo leaves is valid, and the event, taken again, leads back to the state
/// that the history reached.
pub fn granted_undo<L>()
    ensures undone { ForFreeNamed (λ n history name event left.
        undo_of n history name ≡ Ok (event, left)) }
    ensures needed { ForNeeded (λ n history name dependent.
        undo_of n history name ≡ Err (Refusal.NeededBy dependent)) }
    ensures no_step { ForNew (λ n history name. undo_of n history name ≡ Err Refusal.NoStep) }
    ensures no_process { ForAbsent (λ n history name.
        undo_of n history name ≡ Err Refusal.NoProcess) }
    ensures free { ForUndone IsUndone }
    ensures valid { ForUndoneIn L (λ machine history event left. IsValid machine left) }
    ensures again { ForUndoneIn L (λ machine history event left.
        LeadsBack machine left event history) }
{}

/// An event may be removed with its consequences. What remains is valid, and what was removed,
/// taken again in order, leads to the state that the history reached.
#[tactic(auto, using(cdb_rules::proofs::Histories::rollback_redo, cdb_rules::proofs::Histories::rollback_valid))]
pub fn rollback<L>()
    ensures valid { InValid L (λ machine history. (at : ℕ) →
        IsValid machine (remaining depends history at)) }
    ensures again { ForConsequences L (λ machine history removed left.
        AllLeadBack machine left removed history) }
{}

/// A rollback removes the event of the name with its consequences, the last first,
/// and is refused where none has it. What it leaves is valid, and what it removed, taken again in order,
/// leads back to the state that the history reached.
#[tactic(auto, using(cdb_rules::proofs::Undo::rolling_back))]
pub fn granted_rollback<L>()
    ensures rolled_back { ForNamed (λ n history name at event.
        rollback_of n history name ≡ Ok (taken_back history at)) }
    ensures no_step { ForNew (λ n history name. rollback_of n history name ≡ Err Refusal.NoStep) }
    ensures no_process { ForAbsent (λ n history name.
        rollback_of n history name ≡ Err Refusal.NoProcess) }
    ensures exact { ForRolledBack IsRolledBackTo }
    ensures valid { ForRolledBackIn L (λ machine history removed left. IsValid machine left) }
    ensures again { ForRolledBackIn L (λ machine history removed left.
        AllLeadBack machine left (reverse removed) history) }
{}

/// An event that was just taken is free, and the history without it is the one before it: where its
/// name is new, its undo returns just that.
pub fn step_then_undo()
    ensures free { (history : List Event) (event : Event) →
        IsFree depends (history ++ event ∷ []) (length history + 1) }
    ensures history { (history : List Event) (event : Event) →
        without (history ++ event ∷ []) (length history + 1) ≡ history }
    ensures undone { ForTaken (λ n history name event.
        undo_of n (history ++ event ∷ []) name ≡ Ok (event, history)) }
{}

/// In a valid history each event stands once, the steps of one process stand in the order of their
/// numbers, and a name names one event: each event is the one of its name.
#[tactic(auto, using(cdb_rules::proofs::Undo::once_and_rising))]
pub fn names<L>()
    ensures once { InValid L (λ machine history. IsEachOnce history) }
    ensures rising { InValid L (λ machine history. NumbersRise history) }
    ensures apart { InValid L (λ machine history. NamesDiffer history) }
    ensures named { InValid L (λ machine history.
        AreNamed (length machine.firsts) history) }
{}

/// In a valid history the k-th step of a process is the event with its name and the number k, and its m-th send
/// sends its message of number m.
pub fn numbers<L>()
    ensures steps { InValid L (λ machine history. AreStepsNumbered history) }
    ensures sends { InValid L (λ machine history. AreSendsNumbered history) }
{}

/// A valid history of nine processes at most is one that the look-ups over histories ask for.
#[tactic(auto, using(cdb_rules::proofs::ValidHistories::valid_standing))]
pub fn valid_histories_stand<L>()
    ensures { InValid L (λ machine history.
        length machine.firsts ≤ MAX_PROCESSES → IsStanding history) }
{}

/// In a valid history the loss of a copy comes after the send of its message, and no receive of
/// that copy stands anywhere.
#[tactic(auto, using(cdb_rules::proofs::Undo::losses))]
pub fn losses<L>()
    ensures sent { InValid L (λ machine history. LossesFollowSends history) }
    ensures unreceived { InValid L (λ machine history. LostStayUnreceived history) }
{}

/// Histories that reach the same state are equal up to exchange.
#[tactic(auto, using(cdb_rules::proofs::ValidHistories::same_state_exchanged))]
pub fn same_state_exchanged<L>()
    ensures { ForTwo L (λ machine one other.
        ReachOneState machine one other → IsExchanged depends one other) }
{}

/// The own events of a process, in the state that a history reaches, are its steps as the history
/// alone determines them: each read and write of a register with the number of writes before it.
#[tactic(auto, using(cdb_rules::proofs::ValidHistories::own_of_history))]
pub fn own_events<L>()
    ensures { ForReached L (λ machine history state. (p : ℕ) →
        own_of state p ≡ own_steps p history) }
{}

/// The rules of every run keep valid histories, the state that they reach, and agreement: what is taken
/// after a valid history leaves a valid one, what was undone last is taken again, and histories that are
/// equal up to exchange reach one state.
pub fn rules_keep_histories()
    ensures { (setup : Parts) → AreInRange setup →
        KeepHistories (rules setup) (ReachSameState setup) setup }
{}
