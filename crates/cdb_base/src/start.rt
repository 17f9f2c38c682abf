//! The start of a thread, and its refusal.

ghost use Rattle.std.specs.Prelude.{◌≡◌, IfOk};

use std::error::Error;
use std::fmt;
use std::thread::{Promise, PromisedHandle, Scope};

/// The start of a thread was refused. `start` alone makes one, so a fault that holds one comes of a refused start.
#[derive(Debug, Clone, Copy, PartialEq, Eq)]
pub struct RefusedStart {
    /// Private, so that no other module makes one.
    refused: (),
}

/// The text that the program reports, without the end of the line.
impl fmt::Display for RefusedStart {
    ghost use Rattle.std.specs.Prelude.{Some};
    ghost use Rattle.cdb_base.specs.Start.{refused_start_text};

    ghost output = { λ _. Some refused_start_text };

    fn fmt<W: fmt::Write>(&self, f: &mut fmt::Formatter<W>) -> fmt::Result {
        f.write_str("no thread")
    }
}

impl Error for RefusedStart {}

/// Starts a thread in this scope, whose result keeps the promise. The closure is dropped where the start is refused.
pub fn start<'s, E, P: Promise<T> + Drop, F: FnOnce() -> T + Send + 's, T: Send + Drop + 's>(
    scope: &Scope<'s, E>,
    promise: P,
    f: F,
) -> Result<PromisedHandle<T, P>, RefusedStart>
    requires runs { F.pre f }
    requires keeps { (r : T) → F.post f r → P.kept_by promise r }
    ensures { IfOk result (λ handle. handle.promise ≡ promise) }
{
    match scope.spawn_with(promise, f) {
        Ok(handle) => Ok(handle),
        Err(_) => Err(RefusedStart { refused: () }),
    }
}
