//! What holds of the past of an event. Each function does nothing: its contract is the law.

ghost use Rattle.std.specs.Prelude.{Bool, ℕ, List, ◌++◌, ◌↔◌};
ghost use Rattle.cdb_causal.specs.Causality.{IsConsequence};
ghost use Rattle.cdb_causal.specs.Laws.{OfPairs, LeadsThrough};
ghost use Rattle.cdb_causal.specs.Exchange.{IsExchanged};
ghost use Rattle.cdb_causal.specs.Past.{IsInPast, IsSlice};

/// Past and consequences are one relation, turned round: an event is in the past of another exactly
/// where the other is its consequence.
#[tactic(auto, using(crate::proofs::PastLaws::turned_round))]
pub fn past_is_consequences_turned_round<E>()
    ensures { OfPairs E (λ depends history i j.
        IsInPast depends history j i ↔ IsConsequence depends history i j) }
{}

/// Direct causes lead to all of the past: an event is in the past of another exactly where it is a
/// direct cause of that one or of an event in its past.
#[tactic(auto, using(crate::proofs::PastLaws::by_direct_causes))]
pub fn past_by_direct_causes<E>()
    ensures { OfPairs E (λ depends history i j.
        IsInPast depends history j i ↔ LeadsThrough depends history i j) }
{}

/// What led to an event needs none of the others: it reaches the front of the list, in order, by exchanges of
/// independent neighbours alone.
#[tactic(auto, using(crate::proofs::PastLaws::slice_to_front))]
pub fn slice_to_front<E>()
    ensures { (depends : E → E → Bool) (history : List E) (at : ℕ) (slice others : List E) →
        IsSlice depends history at slice others → IsExchanged depends history (slice ++ others) }
{}
