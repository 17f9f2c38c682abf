//! What the commands do, for whoever writes them.

/// What each command does, one a line, without the end of the last line: `help` of a session and `revdbg --help` show
/// it.
pub const COMMANDS: &str =
    "Commands of a script, one a line (P, S, L: processes; K: a step of P; M: a message of S):
  auto P                P takes the first step that is possible
  step P go             P takes its own next step: send, read, write or compute
  step P query          P asks its oracle, and gets the setup's next answer
  step P query L        P asks its oracle, and gets L
  step P recv S M       P receives its copy of message S#M
  step P learn          P takes over a decision that it received
  step P crash          P crashes
  lose S M P            the network loses the copy of S#M for P (version 2)
  undo P K              undoes step K of P, unless a later event needs it
  undo lost S M P       undoes the loss of the copy of S#M for P
  rollback P K          undoes step K of P with all that needs it
  rollback lost S M P   undoes the loss of the copy of S#M for P
  redo                  takes the last undone event again
  forget                empties the list of undone events
  why P K               names the events that step K of P needs directly
  why lost S M P        names the send of the lost copy
  break decide P        pauses auto where P decides
  break round P R       pauses auto where P enters round R
  break recv P          pauses auto where P receives a message
  break write X         pauses auto where register X is written: r1 to r9 or dec
  unbreak B             removes breakpoint B
  resume                ends the pause
  show P                shows process P
  show regs             shows the registers
  show mail             shows the copies that wait
  show history          shows the standing events
  decisions             shows the standing decisions";
