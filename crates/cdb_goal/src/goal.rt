//! Goals, and the words that name them.

ghost use Rattle.std.specs.Prelude.{◌≡◌, ℕ, MatchOption};
ghost use Rattle.std.specs.List.{after_first, before_first};
ghost use Rattle.cdb_goal.specs.Words.{HasNoColon, IsNumbersOf, IsWordOf, WritesNumber, is_colon, Goal as GoalName};

use cdb_base::limits::MAX_NUMBER;

/// What is looked for among the runs of a setup. The numbers are as a user gave them.
#[derive(Clone, Copy, Debug, PartialEq, Eq)]
pub enum Goal {
    /// Two decisions that stand differ.
    Differ,
    /// Each process that did not crash has decided.
    All,
    /// A process is in this round or a later one, and none has decided.
    Stuck(u32),
    /// This process has decided this value.
    Decides(u32, u32),
}

/// The number that the text is, from this one to 999,999.
fn number_from(least: u32, text: &str) -> Option<u32>
    ensures { MatchOption result ((number : ℕ) → WritesNumber least text.now number → ⊥)
        (WritesNumber least text.now) }
{
    match text.parse::<u32>() {
        Ok(number) if least <= number && number <= MAX_NUMBER => Some(number),
        _ => None,
    }
}

/// The two texts around the first colon.
fn around_colon(text: &str) -> Option<(&str, &str)>
    ensures { MatchOption result (HasNoColon text.now)
        (λ pair. (pair.0.now ≡ before_first is_colon text.now) × (pair.1.now ≡ after_first is_colon text.now)) }
{
    text.split_once(':')
}

/// The process and the value of a text `P:V`.
fn process_and_value(text: &str) -> Option<(u32, u32)>
    ensures { MatchOption result ((p value : ℕ) → IsNumbersOf p value text.now → ⊥)
        (λ pair. IsNumbersOf pair.0 pair.1 text.now) }
{
    let (p, value) = around_colon(text)?;
    Some((number_from(1, p)?, number_from(0, value)?))
}

/// The round of a word `stuck:R`.
fn stuck_round(word: &str) -> Option<u32>
    ensures { MatchOption result ((round : ℕ) → IsWordOf (GoalName.Stuck round) word.now → ⊥)
        (λ round. IsWordOf (GoalName.Stuck round) word.now) }
{
    number_from(1, word.strip_prefix("stuck:")?)
}

/// The process and the value of a word `decides:P:V`.
fn decided(word: &str) -> Option<(u32, u32)>
    ensures { MatchOption result ((p value : ℕ) → IsWordOf (GoalName.Decides p value) word.now → ⊥)
        (λ pair. IsWordOf (GoalName.Decides pair.0 pair.1) word.now) }
{
    process_and_value(word.strip_prefix("decides:")?)
}

impl Goal {
    /// The goal that the word names: `differ`, `all`, `stuck:R` or `decides:P:V`, where R and P are numbers of 1 to
    /// 999,999, and V one of 0 to 999,999.
    ///
    /// Promise: A word is read as a goal exactly where it names one, and then as a goal that it names.
    pub fn read(word: &str) -> Option<Goal>
        ensures { MatchOption result ((goal : GoalName) → IsWordOf goal word.now → ⊥)
            (λ goal. IsWordOf goal word.now) }
    {
        if word == "differ" {
            return Some(Goal::Differ);
        }
        if word == "all" {
            return Some(Goal::All);
        }
        if let Some(round) = stuck_round(word) {
            return Some(Goal::Stuck(round));
        }
        match decided(word) {
            Some((p, value)) => Some(Goal::Decides(p, value)),
            None => None,
        }
    }
}
