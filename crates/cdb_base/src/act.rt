//! What a session can ask of a process.

/// What a process is asked to do in a step. The numbers are as a session gave them: whether they name
/// anything is checked when the step is taken.
#[derive(Clone, Copy, PartialEq, Eq)]
pub enum Act {
    /// What its machine does of itself: a send, a read, a write or a local step.
    Go,
    /// Adopt a decision that it received.
    Learn,
    Crash,
    /// Ask the oracle: the setup's next answer, or the leader that is given instead.
    Query(Option<u32>),
    /// Receive the message of that sender and number.
    Recv(u32, u32),
}
