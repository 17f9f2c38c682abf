//! The lists of answers, read from the JSON value.

ghost use Rattle.std.specs.Prelude.{◌≡◌, ◌<◌, ◌≤◌, length, map, IfOk};
ghost use Rattle.serde_json.specs.View.{view};
ghost use Rattle.cdb_base.specs.Limits.{MAX_PROCESSES};
ghost use Rattle.cdb_setup.specs.Parts.{lists_in};
ghost use Rattle.cdb_setup.specs.Faults.{IfFault, IsCount};
ghost use Rattle.cdb_setup.specs.Readings.{IsFirstOf, IsClearBelow, IsReadIfWhole, AreRead, IsListRead, AreListsRead};
ghost use Rattle.cdb_setup.specs.Readings.{HasAnswers, IsFirstOfAnswers, IsFirstOfList, IsFirstOfLists};

use crate::fault::SetupFault;
use crate::key::Key;
use crate::parts::{one_each, whole_within};
use cdb_base::Proc;
use serde_json::Value;
use std::alloc::Global;

/// The process that the value names, where there are this many.
fn process_of(value: &Value, count: u8) -> Option<Proc>
    requires { count ≤ MAX_PROCESSES }
    ensures { IsReadIfWhole 1 count (view value.now) result }
{
    Some(Proc::new(whole_within(value, 1, count as u64)? as u8))
}

/// The answers that the values are, or the fault of the first that is none; for the process of this
/// index.
fn all_answers(
    alloc: Global,
    values: &[Value],
    count: u8,
    index: usize,
) -> Result<Vec<Proc>, SetupFault>
    requires few { count ≤ MAX_PROCESSES }
    requires low { index < MAX_PROCESSES }
    ensures found { IfOk result (λ answers. AreRead 1 count (map view values.now) answers.items) }
    ensures fault { IfFault result (IsFirstOfAnswers count index (map view values.now)) }
{
    let mut answers = Vec::new(alloc);
    for (i, value) in values.iter().enumerate() {
        match process_of(value, count) {
            Some(answer) => answers.push(answer)?,
            None => return Err(SetupFault::BadOracle(index + 1, i + 1)),
        }
    }
    Ok(answers)
}

/// The answers for the process of this index, which counts from 0.
fn list_of(alloc: Global, value: &Value, count: u8, index: usize) -> Result<Vec<Proc>, SetupFault>
    requires few { count ≤ MAX_PROCESSES }
    requires low { index < MAX_PROCESSES }
    ensures found { IfOk result (λ answers. IsListRead count (view value.now) answers.items) }
    ensures fault { IfFault result (IsFirstOfList count index (view value.now)) }
{
    let Some(values) = value.as_array() else {
        return Err(SetupFault::BadOracle(index + 1, 0));
    };
    all_answers(alloc, values.as_slice(), count, index)
}

/// The lists of answers that the values are, or the first fault in them.
fn all_lists(alloc: Global, values: &[Value], count: u8) -> Result<Vec<Vec<Proc>>, SetupFault>
    requires few { count ≤ MAX_PROCESSES }
    requires each { length values.now ≡ count }
    ensures found { IfOk result
        (λ lists. AreListsRead count (map view values.now) (lists_in lists.items)) }
    ensures fault { IfFault result (IsFirstOfLists count (map view values.now)) }
{
    let mut lists = Vec::new(alloc);
    for (index, value) in values.iter().enumerate() {
        let list = list_of(alloc, value, count, index)?;
        lists.push(list)?;
    }
    Ok(lists)
}

/// The lists of answers, where there are this many processes.
pub(crate) fn answers_of(
    alloc: Global,
    value: &Value,
    count: u8,
) -> Result<Vec<Vec<Proc>>, SetupFault>
    requires count { IsCount count (view value.now) }
    requires clear { IsClearBelow 9 (view value.now) }
    ensures found { IfOk result (λ lists.
        HasAnswers count (view value.now) (lists_in lists.items) × IsClearBelow 10 (view value.now)) }
    ensures fault { IfFault result (λ fault. IsFirstOf fault (view value.now)) }
{
    let Some(values) = one_each(value, Key::Oracle, count) else {
        return Err(SetupFault::BadOracle(0, 0));
    };
    all_lists(alloc, values, count)
}
