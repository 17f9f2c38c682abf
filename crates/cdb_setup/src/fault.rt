//! Why bytes are the text of no setup.

ghost use Rattle.std.specs.Prelude.{◌≡◌, Some};
ghost use Rattle.cdb_base.specs.Memory.{no_memory};
ghost use Rattle.cdb_setup.specs.declared.fault.SetupFault.TheVariants.{NoMemory};
ghost use Rattle.cdb_setup.specs.Numbers.{fault_number, fault_name, setup_detail, setup_fault_text};

use crate::key::Key;
use cdb_base::NoMemory;
use std::alloc::{AllocError, AllocFailed};
use std::error::Error;
use std::fmt;

/// Why no setup was read. Processes, inputs and answers are numbered from 1.
#[derive(Clone, Copy, Debug, PartialEq, Eq)]
pub enum SetupFault {
    /// The bytes are no JSON value, nest more than 127 deep, or aren't UTF-8.
    NotJson,
    /// The value is no object.
    NotObject,
    /// The object has a key that no setup has.
    UnknownKey,
    /// This key is absent, and each needed key before it is there.
    Missing(Key),
    /// The algorithm is neither `"leader"` nor `"alpha"`.
    BadAlgorithm,
    /// The number of processes is no whole number from 1 to 9.
    BadCount,
    /// The quorum is no whole number from 1 to the number of processes.
    BadQuorum,
    /// The input of this process is no whole number from 0 to 999,999; with 0, the inputs are no
    /// array with one for each process.
    BadInput(usize),
    /// For this process, the answer of this number is no whole number from 1 to the number of
    /// processes; with number 0, the answers for the process are no array; with 0 and 0, the oracle is
    /// no array with one list for each process.
    BadOracle(usize, usize),
    /// There are more than 1,048,576 bytes.
    TooLong,
    /// The version is neither 1 nor 2.
    BadVersion,
    /// An allocation failed. The bytes may be the text of a setup.
    NoMemory(NoMemory),
}

impl SetupFault {
    /// The number under which the fault is shown, from 1 to 11. Out of memory has none.
    pub fn number(&self) -> Option<u8>
        ensures { result ≡ fault_number self.now }
    {
        let number = match self {
            SetupFault::NotJson => 1,
            SetupFault::NotObject => 2,
            SetupFault::UnknownKey => 3,
            SetupFault::Missing(_) => 4,
            SetupFault::BadAlgorithm => 5,
            SetupFault::BadCount => 6,
            SetupFault::BadQuorum => 7,
            SetupFault::BadInput(_) => 8,
            SetupFault::BadOracle(_, _) => 9,
            SetupFault::TooLong => 10,
            SetupFault::BadVersion => 11,
            SetupFault::NoMemory(_) => return None,
        };
        Some(number)
    }

    /// The name under which the fault is shown: that of the variant, with nothing that it carries.
    pub fn name(&self) -> &'static str
        ensures { result.now ≡ fault_name self.now }
    {
        match self {
            SetupFault::NotJson => "NotJson",
            SetupFault::NotObject => "NotObject",
            SetupFault::UnknownKey => "UnknownKey",
            SetupFault::Missing(_) => "Missing",
            SetupFault::BadAlgorithm => "BadAlgorithm",
            SetupFault::BadCount => "BadCount",
            SetupFault::BadQuorum => "BadQuorum",
            SetupFault::BadInput(_) => "BadInput",
            SetupFault::BadOracle(_, _) => "BadOracle",
            SetupFault::TooLong => "TooLong",
            SetupFault::BadVersion => "BadVersion",
            SetupFault::NoMemory(_) => "NoMemory",
        }
    }
}

/// The text that the program reports, without the end of the line.
impl fmt::Display for SetupFault {
    ghost output = { λ fault. Some (setup_fault_text fault) };

    fn fmt<W: fmt::Write>(&self, f: &mut fmt::Formatter<W>) -> fmt::Result {
        let Some(number) = self.number() else {
            return f.write_str("no memory");
        };
        let name = self.name();
        let detail = Detail { fault: *self };
        write!(f, "setup fault {number} {name}{detail}")
    }
}

/// What a fault carries, as its text ends with it.
#[derive(Drop)]
struct Detail {
    fault: SetupFault,
}

/// After a space the key, the position, or the process and the position; nothing where the fault carries none.
impl fmt::Display for Detail {
    ghost output = { λ detail. Some (setup_detail detail.fault) };

    fn fmt<W: fmt::Write>(&self, f: &mut fmt::Formatter<W>) -> fmt::Result {
        match self.fault {
            SetupFault::Missing(key) => {
                let key = key.name();
                write!(f, " {key}")
            }
            SetupFault::BadInput(position) => write!(f, " {position}"),
            SetupFault::BadOracle(process, position) => write!(f, " {process} {position}"),
            _ => Ok(()),
        }
    }
}

impl Error for SetupFault {}

impl From<AllocError> for SetupFault {
    ghost from_gives = { λ _ fault. fault ≡ NoMemory no_memory };

    fn from(error: AllocError) -> SetupFault {
        SetupFault::NoMemory(NoMemory::from(error))
    }
}

impl<T: Drop> From<AllocFailed<T>> for SetupFault {
    ghost from_gives = { λ _ fault. fault ≡ NoMemory no_memory };

    fn from(error: AllocFailed<T>) -> SetupFault {
        SetupFault::NoMemory(NoMemory::from(error))
    }
}
