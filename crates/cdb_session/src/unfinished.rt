//! The line that has not ended.

ghost use Rattle.std.specs.Prelude.{◌≡◌, ◌+◌, ◌≤◌, ◌++◌, ◌∷◌, take, length, OnOk, IfSome, IfNone};
ghost use Rattle.cdb_session.specs.Requests.{HasNoEnd};
ghost use Rattle.cdb_setup.specs.Format.{longest};

use cdb_base::limits::MAX_BYTES;
use std::alloc::AllocError;

/// The most bytes that are kept of a line: one more than it may have.
const MOST: usize = MAX_BYTES + 1;

/// Holds more of the line, as much of it as shows that it is too long: a line of at most 1,048,576 bytes whole, and one
/// byte more of a longer one. After out of memory what was kept is kept.
#[tactic(auto, using(crate::proofs::CutLines::fill))]
pub fn hold(unfinished: &mut Vec<u8>, bytes: &[u8]) -> Result<(), AllocError>
    requires { length unfinished.old.items ≤ longest + 1 }
    ensures { OnOk result
        (unfinished.new.items ≡ take (longest + 1) (unfinished.old.items ++ bytes.now)) }
{
    let count = bytes.len().min(MOST - unfinished.len());
    unfinished.extend_from_slice(&bytes[..count])?;
    Ok(())
}

/// What stands before the first byte 10, and what follows it, where there is one.
pub fn cut(bytes: &[u8]) -> Option<(&[u8], &[u8])>
    ensures some { IfSome result
        (λ parts. HasNoEnd parts.0.now × (bytes.now ≡ parts.0.now ++ 10 ∷ parts.1.now)) }
    ensures none { IfNone result (HasNoEnd bytes.now) }
{
    match bytes.iter().position(|byte| *byte == b'\n') {
        Some(end) => Some((&bytes[..end], &bytes[end + 1..])),
        None => None,
    }
}
