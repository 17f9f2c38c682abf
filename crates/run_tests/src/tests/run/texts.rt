//! The line of each form of command, and the texts of replies that no short script has.

use cdb_base::{CopyName, MsgName, NoMemory, Payload, Proc, StepId, StepName};
use cdb_control::Reply;
use cdb_text::{parse_line, push_command, reply_text};
use std::alloc::{AllocError, Global};

const LINES: &str = "step 1 go
step 2 learn
step 1 crash
step 1 query
step 1 query 4
step 2 recv 1 3
auto 1
auto 999999
lose 1 3 2
undo 1 8
undo lost 1 3 2
redo
forget
rollback 1 2
rollback lost 1 3 2
why 2 1
why lost 1 3 2
break decide 1
break round 1 2
break recv 1
break write r1
break write r9
break write dec
unbreak 2
resume
show 10
show regs
show mail
show history
decisions";

/// Whether the line is that of its command.
fn is_line(alloc: Global, line: &str) -> Result<bool, AllocError> {
    let Ok(command) = parse_line(line.as_bytes()) else {
        return Ok(false);
    };
    let mut text = String::new(alloc);
    push_command(&mut text, &command)?;
    Ok(text.as_str() == line)
}

#[test]
fn each_command_has_its_line(rt: HostRuntime) {
    for line in LINES.lines() {
        assert!(rt; is_line(rt.alloc(), line) == Ok(true), "{line}");
    }
}

/// Whether the text of the reply, which is given up, is this one.
fn is_text(alloc: Global, reply: Reply, text: &str) -> Result<bool, NoMemory> {
    let found = reply_text(alloc, &reply);
    reply.close();
    Ok(found?.as_slice() == text.as_bytes())
}

/// A loss is a direct cause of a later receive in no run.
#[test]
fn a_loss_among_causes(rt: HostRuntime) -> Result<(), AllocError> {
    let loss = StepId::Lost(CopyName {
        msg: MsgName {
            s: Proc::new(1),
            m: 1,
        },
        to: Proc::new(2),
    });
    let first = StepId::Step(StepName {
        p: Proc::new(1),
        k: 1,
    });
    let second = StepId::Step(StepName {
        p: Proc::new(1),
        k: 2,
    });
    let causes = Vec::from_slice(rt.alloc(), &[first, loss])?;
    let reply = Reply::Because(second, causes);
    let text = "1.2 because 1.1 lost 1#1 to 2\n";
    assert!(rt; is_text(rt.alloc(), reply, text) == Ok(true));
    Ok(())
}

/// No short script comes to a twelfth round.
#[test]
fn mail_of_a_late_round(rt: HostRuntime) -> Result<(), AllocError> {
    let name = MsgName {
        s: Proc::new(2),
        m: 10,
    };
    let payload = Payload::P2 {
        round: 12,
        aux: None,
    };
    let mut copies = Vec::new(rt.alloc());
    copies.push((Proc::new(1), name, payload))?;
    let text = "to 1 2#10 p2 12 none\n";
    assert!(rt; is_text(rt.alloc(), Reply::Mail(copies), text) == Ok(true));
    Ok(())
}
