//! Setups as values: their parts, which of them are equal, and refused memory. Their faults are rows of
//! tests/setups.txt.

use cdb_base::{NoMemory, Proc, Val};
use cdb_setup::{Algorithm, Setup, SetupFault};
use std::alloc::Global;
use std::process::Abort;

/// One process that proposes 7.
const ONE: &str = r#"{"algorithm":"leader","processes":1,"quorum":1,"inputs":[7],"oracle":[[1]]}"#;

/// Three processes, one of which never gets an answer.
const THREE: &str =
    r#"{"algorithm":"leader","processes":3,"quorum":2,"inputs":[1,2,3],"oracle":[[],[1],[3,1,2]]}"#;

/// The same three processes, of the parts.
fn three_processes(alloc: Global) -> Result<Setup, NoMemory> {
    let inputs = [Val::new(1), Val::new(2), Val::new(3)];
    let second = [Proc::new(1)];
    let third = [Proc::new(3), Proc::new(1), Proc::new(2)];
    let answers: [&[Proc]; 3] = [&[], &second, &third];
    Setup::from_parts(alloc, 1, Algorithm::Leader, 2, &inputs, &answers)
}

/// Compares the parts of the setup of three processes but for the oracle's answers.
fn compare_parts(rt: &impl Abort, setup: &Setup) {
    assert!(rt; setup.version() == 1);
    assert!(rt; setup.algorithm() == Algorithm::Leader);
    assert!(rt; setup.n() == 3);
    assert!(rt; setup.q() == 2);
    assert!(rt; setup.input(Proc::new(3)) == Val::new(3));
}

/// Compares the oracle's answers to three processes, and those that it does not have.
fn compare_answers(rt: &impl Abort, setup: &Setup) {
    let answers = [
        (1, 1, None),
        (2, 1, Some(1)),
        (2, 2, None),
        (3, 0, None),
        (3, 1, Some(3)),
        (3, 3, Some(2)),
        (3, 4, None),
        (3, 4_294_967_295, None),
        (4, 1, None),
    ];
    for (p, k, leader) in answers {
        let p = Proc::from_number(p).expect(rt, "a process");
        let leader = leader.and_then(Proc::from_number);
        assert_eq!(rt; setup.answer(p, k), leader);
    }
}

#[test]
fn parts_of_a_setup(rt: HostRuntime) {
    let setup = read_at_last(&rt);
    compare_parts(&rt, &setup);
    compare_answers(&rt, &setup);
}

/// Texts of setups. Two that have one number stand for one setup: with the version written out, keys in another order,
/// space, and keys that are written twice, of which the last counts.
const TEXTS: [(u8, &str); 13] = [
    (1, ONE),
    (
        1,
        r#"{"algorithm":"leader","processes":1,"quorum":1,"inputs":[7],"oracle":[[1]],"version":1}"#,
    ),
    (
        1,
        r#"{"oracle":[[1]],"inputs":[7],"quorum":1,"processes":1,"algorithm":"leader"}"#,
    ),
    (
        1,
        " { \"algorithm\" :\t\"leader\" ,\n\"processes\":1,\"quorum\":1,\"inputs\":[ 7 ],\"oracle\":[[1]]} \r\n",
    ),
    (
        2,
        r#"{"version":2,"algorithm":"leader","processes":1,"quorum":1,"inputs":[7],"oracle":[[1]]}"#,
    ),
    (
        2,
        r#"{"version":3,"version":2,"algorithm":"alpha","processes":1,"quorum":0,"quorum":1,"inputs":[7],"oracle":[[1]],"algorithm":"leader"}"#,
    ),
    (3, THREE),
    (
        4,
        r#"{"algorithm":"alpha","processes":1,"quorum":1,"inputs":[7],"oracle":[[1]]}"#,
    ),
    (
        5,
        r#"{"algorithm":"leader","processes":2,"quorum":1,"inputs":[5,6],"oracle":[[1],[2]]}"#,
    ),
    (
        6,
        r#"{"algorithm":"leader","processes":2,"quorum":2,"inputs":[5,6],"oracle":[[1],[2]]}"#,
    ),
    (
        7,
        r#"{"algorithm":"leader","processes":1,"quorum":1,"inputs":[999999],"oracle":[[1]]}"#,
    ),
    (
        8,
        r#"{"algorithm":"leader","processes":1,"quorum":1,"inputs":[7],"oracle":[[]]}"#,
    ),
    (
        9,
        r#"{"algorithm":"alpha","processes":2,"quorum":2,"inputs":[7,8],"oracle":[[1],[2]]}"#,
    ),
];

/// Whether two texts stand for one setup, or a fault of one of them.
fn are_equal(alloc: Global, text: &str, other: &str) -> Result<bool, SetupFault> {
    let setup = Setup::read(alloc, text.as_bytes())?;
    let other = Setup::read(alloc, other.as_bytes())?;
    Ok(setup == other)
}

#[test]
fn texts_of_one_setup_are_equal(rt: HostRuntime) {
    for (number, text) in &TEXTS {
        for (other_number, other) in &TEXTS {
            let found = are_equal(rt.alloc(), text, other);
            assert_eq!(rt; found, Ok(number == other_number), "{text} and {other}");
        }
    }
}

#[test]
fn each_beginning_is_no_json(rt: HostRuntime) {
    for end in 0..ONE.len() {
        let fault = Setup::read(rt.alloc(), &ONE.as_bytes()[..end]).err();
        assert_eq!(rt; fault, Some(SetupFault::NotJson), "{end} bytes");
    }
}

/// The setup of three processes, read once more where an allocation failed.
fn read_at_last<R: Abort + AllocGlobal>(rt: &R) -> Setup {
    match Setup::read(rt.alloc(), THREE.as_bytes()) {
        Ok(setup) => setup,
        Err(fault) => {
            assert!(rt; matches!(fault, SetupFault::NoMemory(_)));
            Setup::read(rt.alloc(), THREE.as_bytes()).expect(rt, "a setup")
        }
    }
}

/// Its copy, made once more where an allocation failed.
fn copy_at_last<R: Abort + AllocGlobal>(rt: &R, setup: &Setup) -> Setup {
    match setup.copy(rt.alloc()) {
        Ok(copy) => copy,
        Err(_) => setup.copy(rt.alloc()).expect(rt, "a copy"),
    }
}

/// The same of its parts, made once more where an allocation failed.
fn made_at_last<R: Abort + AllocGlobal>(rt: &R) -> Setup {
    match three_processes(rt.alloc()) {
        Ok(made) => made,
        Err(_) => three_processes(rt.alloc()).expect(rt, "a setup"),
    }
}

/// Where an allocation fails, the call says so, and made again it does its work. To see it, let each allocation of
/// this test fail in turn.
#[test]
fn setups_without_memory(rt: HostRuntime) {
    let setup = read_at_last(&rt);
    assert!(rt; copy_at_last(&rt, &setup) == setup);
    assert!(rt; made_at_last(&rt) == setup);
}
