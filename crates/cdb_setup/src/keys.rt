//! The keys of the JSON value.

ghost use Rattle.std.specs.Prelude.{◌≡◌, MatchOption, IfErr, OnOk, string_bytes, is_none, find};
ghost use Rattle.std.specs.BTreeMap.{keys};
ghost use Rattle.std.specs.List.{list_all};
ghost use Rattle.serde_json.specs.Data.{object};
ghost use Rattle.serde_json.specs.Find.{get};
ghost use Rattle.serde_json.specs.View.{view, members_view};
ghost use Rattle.cdb_setup.specs.Format.{name_of, HasKnownKeys};
ghost use Rattle.cdb_setup.specs.Readings.{HasNeededKeys, IsFirstMissing, IsFirstOf, IsClearBelow, ChecksKeys};
ghost use Rattle.cdb_setup.specs.Readings.{is_key_name};

use crate::fault::SetupFault;
use crate::key::Key;
use serde_json::{Map, Value};

/// All keys.
const ALL: [Key; 6] = [
    Key::Algorithm,
    Key::Processes,
    Key::Quorum,
    Key::Inputs,
    Key::Oracle,
    Key::Version,
];

/// Whether each name is that of a key.
fn are_key_names(members: &Map<String, Value>) -> bool
    ensures { result ≡ list_all (λ name. is_key_name (string_bytes name)) (keys members.now) }
{
    members.keys().all(|name| is_key_name(name.as_str()))
}

/// Whether the name is that of a key.
fn is_key_name(name: &str) -> bool
    ensures { result ≡ is_key_name name.now }
{
    ALL.iter().any(|key| name == key.name())
}

/// Whether only keys of a setup stand there, as the fault says it.
fn has_known_keys(members: &Map<String, Value>) -> bool
    ensures { ChecksKeys result (object (members_view members.now.entries)) }
{
    are_key_names(members)
}

/// Whether nothing stands under the key.
fn is_missing(value: &Value, key: Key) -> bool
    ensures { result ≡ is_none (get (name_of key) (view value.now)) }
{
    value.get(key.name()).is_none()
}

/// The first needed key that is absent.
fn missing_key(value: &Value) -> Option<Key>
    ensures { result ≡ find (λ k. is_none (get (name_of k) (view value.now))) Key.NEEDED }
{
    Key::NEEDED
        .iter()
        .copied()
        .find(|key| is_missing(value, *key))
}

/// The same, as the fault that it is.
fn first_missing(value: &Value) -> Option<Key>
    ensures { MatchOption result (HasNeededKeys (view value.now))
        (λ k. IsFirstMissing k (view value.now)) }
{
    missing_key(value)
}

/// Tests that the value is an object with the keys that a setup needs, and no key that no setup has.
pub(crate) fn check_keys(value: &Value) -> Result<(), SetupFault>
    ensures ok { OnOk result (HasKnownKeys (view value.now) × IsClearBelow 5 (view value.now)) }
    ensures fault { IfErr result (λ fault. IsFirstOf fault (view value.now)) }
{
    let Some(members) = value.as_object() else {
        return Err(SetupFault::NotObject);
    };
    if !has_known_keys(members) {
        return Err(SetupFault::UnknownKey);
    }
    match first_missing(value) {
        Some(key) => Err(SetupFault::Missing(key)),
        None => Ok(()),
    }
}
