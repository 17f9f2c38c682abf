//! Reading a setup from the bytes of a JSON text.

ghost use Rattle.std.specs.Prelude.{◌≡◌, ◌<◌, ◌⊎◌, length, Err, IfOk};
ghost use Rattle.serde_json.specs.Errors.{IsMemory};
ghost use Rattle.cdb_base.specs.Memory.{no_memory};
ghost use Rattle.serde_json.specs.View.{view};
ghost use Rattle.cdb_setup.specs.Faults.{IfFault};
ghost use Rattle.cdb_setup.specs.Format.{IsSetupOf, Encodes, longest};
ghost use Rattle.cdb_setup.specs.Order.{IsFirstFault};
ghost use Rattle.cdb_setup.specs.Readings.{IsFirstOf};

use crate::answers::answers_of;
use crate::fault::SetupFault;
use crate::keys::check_keys;
use crate::parts::{algorithm_of, count_of, inputs_of, quorum_of, version_of};
use crate::setup::Setup;
use cdb_base::limits::MAX_BYTES;
use cdb_base::{LibraryError, NoMemory};
use serde_json::{Error, Value};
use std::alloc::Global;

/// The setup of which this is the JSON value.
fn setup_of(alloc: Global, value: &Value) -> Result<Setup, SetupFault>
    ensures found { IfOk result (λ setup. IsSetupOf (view value.now) setup) }
    ensures fault { IfFault result (λ fault. IsFirstOf fault (view value.now)) }
{
    check_keys(value)?;
    let Some(algorithm) = algorithm_of(value) else {
        return Err(SetupFault::BadAlgorithm);
    };
    let Some(processes) = count_of(value) else {
        return Err(SetupFault::BadCount);
    };
    let Some(quorum) = quorum_of(value, processes) else {
        return Err(SetupFault::BadQuorum);
    };
    let inputs = inputs_of(alloc, value, processes)?;
    let answers = answers_of(alloc, value, processes)?;
    let Some(version) = version_of(value) else {
        return Err(SetupFault::BadVersion);
    };
    Ok(Setup {
        version,
        algorithm,
        processes,
        quorum,
        inputs,
        answers,
    })
}

/// An error of reading JSON.
#[derive(Drop)]
struct JsonError(Error);

impl LibraryError for JsonError {
    ghost use Rattle.serde_json.specs.Errors.{IsMemory};

    ghost says_no_memory = { λ error. IsMemory error.0 };

    fn is_no_memory(&self) -> bool {
        self.0.is_memory()
    }
}

/// Why there is no JSON value: out of memory, or the bytes are the text of none.
fn fault_of(error: &JsonError) -> SetupFault
    ensures { (IsMemory error.now.0 × result ≡ SetupFault.NoMemory no_memory)
        ⊎ (¬ IsMemory error.now.0 × result ≡ SetupFault.NotJson) }
{
    match NoMemory::of(error) {
        Some(refused) => SetupFault::NoMemory(refused),
        None => SetupFault::NotJson,
    }
}

/// The setup of which the bytes are the text, or their first fault.
pub(crate) fn read(alloc: Global, bytes: &[u8]) -> Result<Setup, SetupFault>
    ensures found { IfOk result (λ setup. Encodes bytes.now setup) }
    ensures fault { IfFault result (λ fault. IsFirstFault fault bytes.now) }
    ensures too_long { longest < length bytes.now → result ≡ Err SetupFault.TooLong }
{
    if bytes.len() > MAX_BYTES {
        return Err(SetupFault::TooLong);
    }
    match Value::from_slice(alloc, bytes) {
        Ok(value) => setup_of(alloc, &value),
        Err(error) => Err(fault_of(&JsonError(error))),
    }
}
