//! Machines that take inputs, some of which no run has, and go back.

ghost use Rattle.std.specs.Prelude.{◌≤◌};

use cdb_alpha::Alpha;
use cdb_base::{Cell, Payload, Proc, Reg, Val};
use cdb_leader::{Back, Leader};
use cdb_process::{Input, Process, SameState, Wish};
use std::process::Abort;

/// Has a process take each input, before which it wishes for what stands beside it, and keeps what going back needs.
fn go<P: SameState>(
    rt: &(impl Abort + AllocGlobal),
    process: &mut P,
    steps: &[(Option<Wish>, Input)],
    backs: &mut Vec<P::Back>,
) {
    for (wish, i) in steps {
        assert!(rt; process.wish() == *wish);
        assert!(rt; process.accepts(i));
        let back = process.take(rt.alloc(), *i).expect(rt, "memory");
        assert!(rt; backs.push(back).is_ok());
    }
}

/// Has a process go back by that many steps, or all the way.
fn go_back<P: SameState>(process: &mut P, steps: usize, backs: &mut Vec<P::Back>) {
    for _ in 0..steps {
        if let Some(back) = backs.pop() {
            process.put_back(back);
        }
    }
}

/// Has process 1 of `n`, with all of them as its quorum, take each input, before which it wishes for what stands
/// beside it, and go back.
fn goes_and_goes_back<P: SameState>(
    rt: &(impl Abort + AllocGlobal),
    n: u8,
    input: Val,
    steps: &[(Option<Wish>, Input)],
    decided: Option<Val>,
)
    requires { (1 ≤ n) × (n ≤ 9) }
{
    let mut process = P::first(rt.alloc(), Proc::new(1), n, n, input).expect(rt, "memory");
    let first = P::first(rt.alloc(), Proc::new(1), n, n, input).expect(rt, "memory");
    let mut backs = Vec::new(rt.alloc());
    go(rt, &mut process, steps, &mut backs);
    assert_eq!(rt; process.decision(), decided);
    assert!(rt; !process.has_same_state(&first));
    go_back(&mut process, steps.len(), &mut backs);
    assert!(rt; process.has_same_state(&first));
}

/// What a process that names process 1 and has the value 7 sends in the first phase of a round.
fn first_phase(round: u32) -> Payload {
    let est = Val::new(7);
    let lead = Proc::new(1);
    Payload::P1 { round, est, lead }
}

/// And in the second phase of round 1.
fn second_phase() -> Payload {
    let aux = Some(Val::new(7));
    Payload::P2 { round: 1, aux }
}

#[test]
fn a_leader_machine_decides_alone(rt: HostRuntime) {
    let one = Proc::new(1);
    let seven = Val::new(7);
    let steps = [
        (None, Input::Query(one)),
        (Some(Wish::Send(first_phase(1))), Input::Send),
        (None, Input::Recv(one, first_phase(1))),
        (Some(Wish::Local), Input::Local),
        (Some(Wish::Send(second_phase())), Input::Send),
        (None, Input::Recv(one, second_phase())),
        (Some(Wish::Local), Input::Local),
        (Some(Wish::Send(Payload::D { est: seven })), Input::Send),
    ];
    goes_and_goes_back::<Leader>(&rt, 1, seven, &steps, Some(seven));
}

/// No run sends two first phases of one round.
#[test]
fn a_quorum_is_of_different_senders(rt: HostRuntime) {
    let one = Proc::new(1);
    let two = Proc::new(2);
    let steps = [
        (None, Input::Query(one)),
        (Some(Wish::Send(first_phase(1))), Input::Send),
        (None, Input::Recv(one, first_phase(1))),
        (None, Input::Recv(one, first_phase(1))),
        (None, Input::Recv(Proc::new(3), first_phase(1))),
        (None, Input::Recv(two, first_phase(2))),
        (None, Input::Recv(two, first_phase(1))),
        (Some(Wish::Local), Input::Local),
        (Some(Wish::Send(second_phase())), Input::Send),
    ];
    goes_and_goes_back::<Leader>(&rt, 3, Val::new(7), &steps, None);
}

/// What one that was told of no value sends there.
fn no_value() -> Payload {
    Payload::P2 {
        round: 1,
        aux: None,
    }
}

/// The decision of the value 7.
fn decision() -> Payload {
    let est = Val::new(7);
    Payload::D { est }
}

/// Has a leader machine receive a message of process 1 that many times.
fn hear_often(
    rt: &(impl Abort + AllocGlobal),
    process: &mut Leader,
    payload: Payload,
    times: usize,
    backs: &mut Vec<Back>,
) {
    let hear = Input::Recv(Proc::new(1), payload);
    for _ in 0..times {
        assert!(rt; process.accepts(&hear));
        let back = process.take(rt.alloc(), hear).expect(rt, "memory");
        assert!(rt; backs.push(back).is_ok());
    }
}

/// The index of an inbox covers its first 65,535 messages, more than any run has. After 65,533 messages the next two
/// are still covered, and the others are not. Each sender counts once in either place, and no longer once its messages
/// are taken back.
#[test]
fn an_inbox_is_exact_beyond_its_index(rt: HostRuntime) {
    let (one, two, three) = (Proc::new(1), Proc::new(2), Proc::new(3));
    let seven = Val::new(7);
    let begin = [
        (None, Input::Query(one)),
        (Some(Wish::Send(first_phase(1))), Input::Send),
    ];
    let learns = [
        (None, Input::Recv(one, first_phase(1))),
        (None, Input::Recv(two, first_phase(1))),
        (None, Input::Recv(two, first_phase(1))),
        (None, Input::Recv(three, first_phase(1))),
        (Some(Wish::Local), Input::Local),
        (Some(Wish::Send(second_phase())), Input::Send),
        (None, Input::Recv(one, second_phase())),
        (None, Input::Recv(one, second_phase())),
        (None, Input::Recv(three, second_phase())),
        (None, Input::Recv(two, no_value())),
        (Some(Wish::Local), Input::Local),
        (None, Input::Query(one)),
        (Some(Wish::Send(first_phase(2))), Input::Send),
        (None, Input::Recv(two, first_phase(2))),
        (None, Input::Recv(three, decision())),
        (None, Input::Learn),
        (Some(Wish::Send(decision())), Input::Send),
    ];
    let decides = [
        (None, Input::Recv(three, first_phase(1))),
        (None, Input::Recv(three, first_phase(1))),
        (None, Input::Recv(one, first_phase(1))),
        (None, Input::Recv(two, first_phase(1))),
        (Some(Wish::Local), Input::Local),
        (Some(Wish::Send(second_phase())), Input::Send),
        (None, Input::Recv(two, second_phase())),
        (None, Input::Recv(three, second_phase())),
        (None, Input::Recv(one, second_phase())),
        (Some(Wish::Local), Input::Local),
        (Some(Wish::Send(decision())), Input::Send),
    ];
    let mut process = Leader::first(rt.alloc(), one, 3, 3, seven).expect(&rt, "memory");
    let first = Leader::first(rt.alloc(), one, 3, 3, seven).expect(&rt, "memory");
    let mut backs = Vec::new(rt.alloc());
    go(&rt, &mut process, &begin, &mut backs);
    hear_often(&rt, &mut process, first_phase(2), 65_533, &mut backs);
    go(&rt, &mut process, &learns, &mut backs);
    assert_eq!(rt; process.decision(), Some(seven));
    go_back(&mut process, learns.len(), &mut backs);
    go(&rt, &mut process, &decides, &mut backs);
    assert_eq!(rt; process.decision(), Some(seven));
    let taken = backs.len();
    go_back(&mut process, taken, &mut backs);
    assert!(rt; process.has_same_state(&first));
}

/// The register of process 1.
fn own() -> Reg {
    Reg::R(Proc::new(1))
}

fn cell(lre: u32, lrww: u32, val: Option<Val>) -> Cell {
    Cell { lre, lrww, val }
}

#[test]
fn an_alpha_machine_decides_alone(rt: HostRuntime) {
    let one = Proc::new(1);
    let seven = Val::new(7);
    let steps = [
        (
            Some(Wish::Read(Reg::Dec)),
            Input::Read(Reg::Dec, cell(0, 0, None)),
        ),
        (None, Input::Query(one)),
        (
            Some(Wish::Write(own(), cell(1, 0, None))),
            Input::Write(own()),
        ),
        (
            Some(Wish::Read(own())),
            Input::Read(own(), cell(1, 0, None)),
        ),
        (Some(Wish::Local), Input::Local),
        (
            Some(Wish::Write(own(), cell(1, 1, Some(seven)))),
            Input::Write(own()),
        ),
        (
            Some(Wish::Read(own())),
            Input::Read(own(), cell(1, 1, Some(seven))),
        ),
        (Some(Wish::Local), Input::Local),
        (
            Some(Wish::Write(Reg::Dec, cell(0, 0, Some(seven)))),
            Input::Write(Reg::Dec),
        ),
        (
            Some(Wish::Read(Reg::Dec)),
            Input::Read(Reg::Dec, cell(0, 0, Some(seven))),
        ),
    ];
    goes_and_goes_back::<Alpha>(&rt, 1, seven, &steps, Some(seven));
}

/// Process 1 of 3 with input 9: what it writes where its first pass shows these cells. Most of them no run has.
#[test]
fn the_latest_write_of_the_least_register_is_adopted(rt: HostRuntime) {
    let one = Proc::new(1);
    let (five, six, nine) = (Val::new(5), Val::new(6), Val::new(9));
    let rows = [
        (
            cell(1, 0, None),
            cell(1, 0, Some(five)),
            cell(1, 1, Some(six)),
            Some(six),
        ),
        (
            cell(1, 0, None),
            cell(1, 1, Some(five)),
            cell(1, 1, Some(six)),
            Some(five),
        ),
        (
            cell(1, 0, None),
            cell(1, 0, Some(five)),
            cell(1, 0, None),
            Some(nine),
        ),
        (
            cell(1, 1, None),
            cell(1, 0, Some(five)),
            cell(1, 0, None),
            Some(nine),
        ),
    ];
    for (first, second, third, adopted) in rows {
        let steps = [
            (
                Some(Wish::Read(Reg::Dec)),
                Input::Read(Reg::Dec, cell(0, 0, None)),
            ),
            (None, Input::Query(one)),
            (
                Some(Wish::Write(own(), cell(1, 0, None))),
                Input::Write(own()),
            ),
            (Some(Wish::Read(own())), Input::Read(own(), first)),
            (
                Some(Wish::Read(Reg::R(Proc::new(2)))),
                Input::Read(Reg::R(Proc::new(2)), second),
            ),
            (
                Some(Wish::Read(Reg::R(Proc::new(3)))),
                Input::Read(Reg::R(Proc::new(3)), third),
            ),
            (Some(Wish::Local), Input::Local),
            (
                Some(Wish::Write(own(), cell(1, 1, adopted))),
                Input::Write(own()),
            ),
        ];
        goes_and_goes_back::<Alpha>(&rt, 3, nine, &steps, None);
    }
}
