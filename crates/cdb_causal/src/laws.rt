//! What holds of lists of events under any dependence, over any type of events. Each function does
//! nothing: its contract is the law.

ghost use Rattle.std.specs.Prelude.{Bool, List, [], ◌∷◌, ◌++◌, ◌↔◌, ◌≡◌, Option};
ghost use Rattle.cdb_causal.specs.Causality.{IsFree};
ghost use Rattle.cdb_causal.specs.Dependence.{depends as depends_of};
ghost use Rattle.cdb_causal.specs.Exchange.{IsExchanged, IsEachOnce, HaveSameEvents, KeepsOrder};
ghost use Rattle.cdb_causal.specs.Laws.{OfPositions, OfRollbacks, OfEvents, OfFree, OfTwo, OfExchanged};
ghost use Rattle.cdb_causal.specs.Laws.{HaveSameOrder, ReachTheSame, IsTransitive, IsMutual, IsRollback};
ghost use Rattle.cdb_causal.specs.Laws.{AreConsequences, HasNoEffect, IsDecidedByList, KeepCausesWith};
ghost use Rattle.cdb_causal.specs.Laws.{OthersKeepCauses};
ghost use Rattle.cdb_causal.specs.Laws.{IsFreeIfAlone, MayGoLastFirst};
ghost use Rattle.cdb_causal.specs.Reach.{IsCommuting, IsSymmetric};
ghost use Rattle.cdb_causal.specs.Rollback.{without, rolled_back, consequences};

/// Dependence is symmetric: the order of the two events does not matter.
#[tactic(auto, using(crate::proofs::Symmetry::symmetric))]
pub fn dependence_is_symmetric()
    ensures { IsSymmetric depends_of }
{}

/// A free event reaches the end of the list by exchanges of independent neighbours alone.
#[tactic(auto, using(crate::proofs::Exchanges::free_to_end))]
pub fn free_to_end<E>()
    ensures { OfFree E (λ depends events at event.
        IsExchanged depends events (without events at ++ event ∷ [])) }
{}

/// An event reaches the end of the list with its consequences, in order, by exchanges of
/// independent neighbours alone.
#[tactic(auto, using(crate::proofs::Exchanges::rollback_to_end))]
pub fn rollback_to_end<E>()
    ensures { OfRollbacks E (λ depends history at left removed.
        IsExchanged depends history (left ++ removed)) }
{}

/// What is rolled back is the event with exactly its consequences, and what remains is all else,
/// each in the order of the list. The event itself comes first.
#[tactic(auto, using(crate::proofs::Chains::parted, crate::proofs::Chains::rolled_back_split))]
pub fn rolled_back_exactly<E>()
    ensures first { OfEvents E (λ depends history at event.
        rolled_back depends history at ≡ event ∷ consequences depends history at) }
    ensures parted { OfRollbacks E (λ depends history at left removed.
        IsRollback depends history at left removed) }
{}

/// The consequences are exactly the events at the positions of the least set, in the order of the list.
#[tactic(auto, using(crate::proofs::Chains::consequences_parted))]
pub fn consequences_exactly<E>()
    ensures { OfPositions E (λ depends events at.
        AreConsequences depends events at (consequences depends events at)) }
{}

/// Two lists with the same events, each once, whose dependent pairs stand in the same order, are
/// equal up to exchange.
#[tactic(auto, using(crate::proofs::Orders::exchanged_from_order))]
pub fn same_order_exchanged<E>()
    ensures { OfTwo E (λ depends one other.
        HaveSameOrder depends one other → IsExchanged depends one other) }
{}

/// Lists that are equal up to exchange have the same events, each once in both or in neither, and
/// their dependent pairs stand in the same order.
#[tactic(auto, using(crate::proofs::Orders::same_order_exchanged))]
pub fn exchanged_same_order<E>()
    ensures same_events { OfExchanged E (λ depends events others.
        HaveSameEvents events others) }
    ensures once { OfExchanged E (λ depends events others.
        IsEachOnce events → IsEachOnce others) }
    ensures order { OfExchanged E (λ depends events others.
        KeepsOrder depends events others) }
{}

/// Equality up to exchange is an equivalence.
#[tactic(auto, using(crate::proofs::Exchanges::equivalence))]
pub fn exchange_is_equivalence<E>()
    ensures reflexive { (depends : E → E → Bool) (events : List E) →
        IsExchanged depends events events }
    ensures transitive { (depends : E → E → Bool) → IsTransitive (IsExchanged depends) }
    ensures symmetric { (depends : E → E → Bool) → IsSymmetric depends →
        IsMutual (IsExchanged depends) }
{}

/// Where events that do not depend on each other commute, lists that are equal up to exchange reach
/// the same state, or none of them reaches any.
#[tactic(auto, using(crate::proofs::Reaches::reached_exchanged))]
pub fn exchanged_reach_the_same<S, E>()
    ensures { (take : S → E → Option S) → OfExchanged E (λ depends events others.
        IsCommuting take depends → ReachTheSame take events others) }
{}

/// An event is free exactly where it is a direct cause of none.
pub fn free_without_effects<E>()
    ensures { OfPositions E (λ depends history at.
        IsFree depends history at ↔ HasNoEffect depends history at) }
{}

/// Where an event is added at the end, and where a free event is taken out, the others keep their direct causes.
pub fn direct_causes_stay<E>()
    ensures added { (depends : E → E → Bool) (events : List E) (event : E) →
        KeepCausesWith depends events event }
    ensures taken_out { OfPositions E (λ depends events at.
        IsFree depends events at → OthersKeepCauses depends events at) }
{}

/// The direct causes of the last event of a list are those events on which it depends directly, by
/// the list of what stands between.
#[tactic(auto, using(crate::proofs::Walks::direct_by_list))]
pub fn direct_by_list<E>()
    ensures { OfEvents E (λ depends history at cause. IsDecidedByList depends history at cause) }
{}

/// A rollback may be made one undo at a time, from the last consequence back. An event without
/// consequences is free, and all else remains. Of the consequences the last is free; without it the
/// others are what is rolled back, and the same events remain.
pub fn rollback_by_undo<E>()
    ensures alone { OfPositions E (λ depends history at.
        IsFreeIfAlone depends history at) }
    ensures last { OfPositions E (λ depends history at.
        MayGoLastFirst depends history at) }
{}
