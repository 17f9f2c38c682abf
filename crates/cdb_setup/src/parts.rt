//! The parts of a setup, each read from the JSON value under its key.

ghost use Rattle.std.specs.Prelude.{◌≡◌, ◌<◌, ◌^◌, length, map, MatchOption, IfOk};
ghost use Rattle.serde_json.specs.View.{view};
ghost use Rattle.cdb_base.specs.Limits.{MAX_VALUE};
ghost use Rattle.cdb_setup.specs.Format.{HasAlgorithm};
ghost use Rattle.cdb_setup.specs.Faults.{IfFault, IsCount, HasOneEach, LacksOneEach};
ghost use Rattle.cdb_setup.specs.Readings.{IsFirstOf, IsClearBelow, IsReadIfWhole, IsFoundOr, HasQuorum, IsVersion};
ghost use Rattle.cdb_setup.specs.Readings.{AreRead, HasInputs, IsFirstOfInputs};

use crate::fault::SetupFault;
use crate::key::Key;
use crate::setup::Algorithm;
use cdb_base::Val;
use cdb_base::limits::MAX_PROCESSES;
use serde_json::Value;
use std::alloc::Global;

/// A whole number of the JSON value, from low to high.
pub(crate) fn whole_within(value: &Value, low: u64, high: u64) -> Option<u32>
    requires { high < 2 ^ 32 }
    ensures { IsReadIfWhole low high (view value.now) result }
{
    match value.as_u64() {
        Some(n) if low <= n && n <= high => Some(n as u32),
        _ => None,
    }
}

/// The number of processes.
pub(crate) fn count_of(value: &Value) -> Option<u8>
    requires { IsClearBelow 6 (view value.now) }
    ensures { IsFoundOr 7 SetupFault.BadCount IsCount result (view value.now) }
{
    let count = value.get(Key::Processes.name())?;
    let number = whole_within(count, 1, MAX_PROCESSES as u64)?;
    Some(number as u8)
}

/// The quorum, where there are this many processes.
pub(crate) fn quorum_of(value: &Value, count: u8) -> Option<u8>
    requires count { IsCount count (view value.now) }
    requires clear { IsClearBelow 7 (view value.now) }
    ensures { IsFoundOr 8 SetupFault.BadQuorum (HasQuorum count) result (view value.now) }
{
    let quorum = value.get(Key::Quorum.name())?;
    let number = whole_within(quorum, 1, count as u64)?;
    Some(number as u8)
}

/// The algorithm.
pub(crate) fn algorithm_of(value: &Value) -> Option<Algorithm>
    requires { IsClearBelow 5 (view value.now) }
    ensures { IsFoundOr 6 SetupFault.BadAlgorithm HasAlgorithm result (view value.now) }
{
    let name = value.get(Key::Algorithm.name())?;
    match name.as_str() {
        Some("leader") => Some(Algorithm::Leader),
        Some("alpha") => Some(Algorithm::Alpha),
        _ => None,
    }
}

/// The version, which is 1 where its key is absent.
pub(crate) fn version_of(value: &Value) -> Option<u8>
    requires { IsClearBelow 10 (view value.now) }
    ensures { IsFoundOr 12 SetupFault.BadVersion IsVersion result (view value.now) }
{
    let Some(version) = value.get(Key::Version.name()) else {
        return Some(1);
    };
    let number = whole_within(version, 1, 2)?;
    Some(number as u8)
}

/// The values under the key, where there is one for each process.
pub(crate) fn one_each(value: &Value, key: Key, count: u8) -> Option<&[Value]>
    requires { IsCount count (view value.now) }
    ensures { MatchOption result (LacksOneEach key (view value.now)) (λ values.
        HasOneEach key (map view values.now) (view value.now) × (length values.now ≡ count)) }
{
    let values = value.get(key.name())?.as_array()?.as_slice();
    if values.len() == count as usize {
        Some(values)
    } else {
        None
    }
}

/// The inputs that the values are, or the fault of the first that is none.
fn all_inputs(alloc: Global, values: &[Value]) -> Result<Vec<Val>, SetupFault>
    ensures found { IfOk result
        (λ inputs. AreRead 0 MAX_VALUE (map view values.now) inputs.items) }
    ensures fault { IfFault result (IsFirstOfInputs (map view values.now)) }
{
    let mut inputs = Vec::new(alloc);
    for (i, value) in values.iter().enumerate() {
        match input_of(value) {
            Some(input) => inputs.push(input)?,
            None => return Err(SetupFault::BadInput(i + 1)),
        }
    }
    Ok(inputs)
}

/// The input that the value is.
fn input_of(value: &Value) -> Option<Val>
    ensures { IsReadIfWhole 0 MAX_VALUE (view value.now) result }
{
    Val::from_number(value.as_u64()?)
}

/// The inputs, where there are this many processes.
pub(crate) fn inputs_of(alloc: Global, value: &Value, count: u8) -> Result<Vec<Val>, SetupFault>
    requires count { IsCount count (view value.now) }
    requires clear { IsClearBelow 8 (view value.now) }
    ensures found { IfOk result (λ inputs.
        HasInputs count (view value.now) inputs.items × IsClearBelow 9 (view value.now)) }
    ensures fault { IfFault result (λ fault. IsFirstOf fault (view value.now)) }
{
    let Some(values) = one_each(value, Key::Inputs, count) else {
        return Err(SetupFault::BadInput(0));
    };
    all_inputs(alloc, values)
}
