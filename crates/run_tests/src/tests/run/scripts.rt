//! Scripts, a command a line as in the files of scripts.

/// Two processes of Alpha decide in a race.
pub const RACE: &str = "auto 1
auto 1
auto 1
auto 1
auto 1
auto 1
auto 1
auto 2
auto 2
auto 2
auto 2
auto 2
auto 2
auto 2
auto 2
auto 2
auto 2
auto 2
auto 2
auto 1
auto 1
auto 1
auto 1";

/// Two copies are lost, and the receive of one of them is refused.
pub const WITH_LOSSES: &str = "auto 1
auto 1
lose 1 1 2
step 2 recv 1 1
auto 1
auto 2
auto 2
lose 2 1 1
auto 2
step 1 crash";

/// The first of two processes of Alpha decides.
pub const TWELVE_STEPS: &str = "auto 1
auto 1
auto 1
auto 1
auto 1
auto 1
auto 1
auto 1
auto 1
auto 1
auto 1
auto 1";
