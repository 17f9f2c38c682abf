//! Each read and each write fails in turn.

use super::{ALL_GOOD, Ended, GoodCalls, action, performed};
use cdb_base::limits::COLUMNS;
use cdb_base::{Question, Request, StepAsked};
use cdb_program::{Action, Fault};
use std::alloc::{AllocError, Global};
use std::process::Abort;
use std::sync::Wait;
use std::test::Fail;
use std::thread::Threads;
use std::time::Clock;

const PLAY: Request<'static> = Request::Play {
    setup: "one.json",
    script: "eight.txt",
};

const STEP: StepAsked = StepAsked { p: 1, k: Some(2) };

const EXPLAIN: Request<'static> = Request::Ask {
    setup: "one.json",
    script: "eight.txt",
    question: Question::Explain(STEP),
};

const TRAIL: Request<'static> = Request::Ask {
    setup: "one.json",
    script: "eight.txt",
    question: Question::Trail(STEP),
};

const DRAW: Request<'static> = Request::Ask {
    setup: "one.json",
    script: "eight.txt",
    question: Question::Draw {
        columns: COLUMNS,
        step: Some(STEP),
    },
};

const SLICE: Request<'static> = Request::Ask {
    setup: "one.json",
    script: "eight.txt",
    question: Question::Slice(Some(STEP)),
};

const PAGE: Request<'static> = Request::Ask {
    setup: "one.json",
    script: "eight.txt",
    question: Question::Page,
};

const REPLAY: Request<'static> = Request::Replay {
    setup: "one.json",
    journal: "journal.txt",
};

const SEARCH: Request<'static> = Request::Search {
    setup: "one.json",
    goal: "stuck:1",
    seed: 1,
    walks: 20,
};

const SHRINK: Request<'static> = Request::Shrink {
    setup: "one.json",
    script: "eight.txt",
    goal: "decides:1:7",
};

/// A race of these scripts on the run of this setup.
fn race<'a>(alloc: Global, setup: &'a str, scripts: &[&'a str]) -> Result<Request<'a>, AllocError> {
    Ok(Request::Race {
        setup,
        turns: 0,
        scripts: Vec::from_slice(alloc, scripts)?,
    })
}

/// A session at the prompt.
fn debug<'a>(alloc: Global) -> Request<'a> {
    Request::Debug {
        setup: "one.json",
        seats: Vec::new(alloc),
        from: None,
        journal: None,
        page: None,
    }
}

/// Compares how a request ended of which one call failed.
fn check<R: Abort>(rt: &R, ended: &Ended, status: u8, error: &str) {
    assert_eq!(rt; ended.status, status);
    assert_eq!(rt; ended.error.as_slice(), error.as_bytes());
    assert_eq!(rt; ended.failures, 1);
}

/// Performs an action of which the write behind this many good ones fails, after which this many bytes are written.
fn check_write<R: Threads + Wait + Clock + Sync + Abort + AllocGlobal>(
    rt: &R,
    action: Action<'_, '_>,
    whole: &[u8],
    good: usize,
    length: usize,
) {
    let calls = GoodCalls {
        output: good,
        ..ALL_GOOD
    };
    let ended = performed(rt, action, calls);
    check(rt, &ended, 7, "output failed\n");
    assert_eq!(rt; ended.output.len(), length);
    assert!(rt; whole.starts_with(ended.output.as_slice()));
}

/// Performs an action whose text has this length, in which each write of the output fails in turn.
fn check_writes<R: Threads + Wait + Clock + Sync + Abort + AllocGlobal>(
    rt: &R,
    action: Action<'_, '_>,
    length: usize,
) {
    let whole = performed(rt, action, ALL_GOOD);
    assert_eq!(rt; (whole.status, whole.output.len()), (0, length));
    // A call takes five bytes.
    for good in 0..length.div_ceil(5) {
        check_write(rt, action, whole.output.as_slice(), good, 5 * good);
    }
}

#[test]
fn each_write_of_output_fails_in_turn(rt: HostRuntime) -> Result<(), Fail> {
    // Each with the length of its text.
    let requests = [
        (Request::Script, 37),
        (PLAY, 107),
        (race(rt.alloc(), "two.json", &["undo.txt", "redo.txt"])?, 90),
        (EXPLAIN, 90),
        (TRAIL, 86),
        (DRAW, 4_738),
        (SLICE, 25),
        (PAGE, 14_617),
        (REPLAY, 35),
        (SEARCH, 15),
        (SHRINK, 97),
    ];
    for (request, length) in &requests {
        check_writes(&rt, action(request), *length);
    }
    check_writes(&rt, Action::Print("help\n"), 5);
    Ok(())
}

#[test]
fn each_write_of_a_session_fails_in_turn(rt: HostRuntime) {
    // The greeting takes 18 calls of 5 bytes at most. Then come the prompt, and answers of 12 and 25 bytes, each with
    // the prompt.
    let (calls, greeting) = (18, 86);
    let written = [0, 2, 7, 12, 16, 21, 26, 31, 36, 41];
    let debug = debug(rt.alloc());
    let whole = performed(&rt, action(&debug), ALL_GOOD);
    for good in 0..calls {
        check_write(&rt, action(&debug), whole.output.as_slice(), good, 5 * good);
    }
    for (good, length) in written.iter().enumerate() {
        check_write(
            &rt,
            action(&debug),
            whole.output.as_slice(),
            calls + good,
            greeting + *length,
        );
    }
    assert_eq!(rt; (whole.status, whole.output.len()), (0, greeting + 43));
}

/// Performs an action with this many good writes of the error, which are all of them or not.
fn check_error<R: Threads + Wait + Clock + Sync + Abort + AllocGlobal>(
    rt: &R,
    action: Action<'_, '_>,
    whole: &Ended,
    good: usize,
    are_all: bool,
) {
    let calls = GoodCalls {
        error: good,
        ..ALL_GOOD
    };
    let ended = performed(rt, action, calls);
    assert_eq!(rt; ended.status, whole.status);
    assert_eq!(rt; ended.output.len(), 0);
    assert!(rt; whole.error.as_slice().starts_with(ended.error.as_slice()));
    assert_eq!(rt; ended.error.len() == whole.error.len(), are_all);
}

/// Performs an action as often as there are writes of the error, with one more good one each time.
fn check_errors<R: Threads + Wait + Clock + Sync + Abort + AllocGlobal>(
    rt: &R,
    action: Action<'_, '_>,
    writes: usize,
) {
    let whole = performed(rt, action, ALL_GOOD);
    for good in 0..=writes {
        check_error(rt, action, &whole, good, good == writes);
    }
}

#[test]
fn each_write_of_error_fails_in_turn(rt: HostRuntime) -> Result<(), Fail> {
    // Each piece of a text is written for itself, 5 bytes a call.
    let requests = [
        (
            // Pieces of 12, 11 and 1 bytes.
            Request::Play {
                setup: "one.json",
                script: "nowhere.txt",
            },
            7,
        ),
        (
            // Pieces of 7, 1, 6, 1, 7, 1, 1, 6 and 1 bytes.
            race(rt.alloc(), "one.json", &["redo.txt", "number.txt"])?,
            13,
        ),
        (
            // Pieces of 13, 2 and 7 bytes.
            Request::Search {
                setup: "one.json",
                goal: "differ",
                seed: 1,
                walks: 20,
            },
            6,
        ),
    ];
    for (request, writes) in &requests {
        check_errors(&rt, action(request), *writes);
    }
    check_errors(&rt, Action::Refuse(Fault::Refused("what is wrong\n")), 3);
    Ok(())
}

/// Performs an action of which the file behind this many good ones can't be read.
fn check_file<R: Threads + Wait + Clock + Sync + Abort + AllocGlobal>(
    rt: &R,
    action: Action<'_, '_>,
    good: usize,
    text: &str,
) {
    let calls = GoodCalls {
        files: good,
        ..ALL_GOOD
    };
    let ended = performed(rt, action, calls);
    check(rt, &ended, 3, text);
    assert_eq!(rt; ended.output.len(), 0);
    assert_eq!(rt; ended.opened.checked_sub(1), Some(good));
}

/// Performs a request whose files can't be read in turn, where each time this is reported.
fn check_files<R: Threads + Wait + Clock + Sync + Abort + AllocGlobal>(
    rt: &R,
    request: &Request<'_>,
    texts: &[&str],
) {
    for (good, text) in texts.iter().enumerate() {
        check_file(rt, action(request), good, text);
    }
    let calls = GoodCalls {
        files: texts.len(),
        ..ALL_GOOD
    };
    assert_eq!(rt; performed(rt, action(request), calls).status, 0);
}

#[test]
fn each_file_can_not_be_read_in_turn(rt: HostRuntime) -> Result<(), Fail> {
    let texts = ["cannot read one.json\n", "cannot read eight.txt\n"];
    for request in &[PLAY, EXPLAIN, TRAIL, DRAW, SLICE, PAGE, SHRINK] {
        check_files(&rt, request, &texts);
    }
    let journal = ["cannot read one.json\n", "cannot read journal.txt\n"];
    check_files(&rt, &REPLAY, &journal);
    for request in &[SEARCH, debug(rt.alloc())] {
        check_files(&rt, request, &["cannot read one.json\n"]);
    }
    let race = race(rt.alloc(), "two.json", &["undo.txt", "redo.txt"])?;
    let texts = [
        "cannot read two.json\n",
        "cannot read undo.txt\n",
        "cannot read redo.txt\n",
    ];
    check_files(&rt, &race, &texts);
    Ok(())
}

/// Performs an action of which the read of standard input behind this many good ones fails; four are all.
fn check_input<R: Threads + Wait + Clock + Sync + Abort + AllocGlobal>(
    rt: &R,
    action: Action<'_, '_>,
    good: usize,
    text: &str,
) {
    let calls = GoodCalls {
        input: good,
        ..ALL_GOOD
    };
    let ended = performed(rt, action, calls);
    if good < 4 {
        check(rt, &ended, 3, "cannot read standard input\n");
    } else {
        assert_eq!(rt; (ended.status, ended.failures), (0, 0));
    }
    assert_eq!(rt; ended.output.as_slice(), text.as_bytes());
}

#[test]
fn each_read_of_input_fails_in_turn(rt: HostRuntime) {
    // The 11 bytes come in three calls, of which the second ends the first line, and a fourth finds the end.
    let requests = [
        (
            Request::Script,
            ["", "", "", "", "1.1 query 1\nrefused 14 NothingToRedo\n"],
        ),
        (
            debug(rt.alloc()),
            [
                "leader-based consensus, 1 process, quorum 1, no copy is lost; help lists the commands\n> ",
                "leader-based consensus, 1 process, quorum 1, no copy is lost; help lists the commands\n> ",
                "leader-based consensus, 1 process, quorum 1, no copy is lost; help lists the commands\n> 1.1 query 1\n> ",
                "leader-based consensus, 1 process, quorum 1, no copy is lost; help lists the commands\n> 1.1 query 1\n> ",
                "leader-based consensus, 1 process, quorum 1, no copy is lost; help lists the commands\n> 1.1 query 1\n> refused 14 NothingToRedo\n> ",
            ],
        ),
    ];
    for (request, texts) in &requests {
        for (good, text) in texts.iter().enumerate() {
            check_input(&rt, action(request), good, text);
        }
    }
}

#[test]
fn the_kth_session_is_that_of_the_kth_name_and_one_that_cannot_be_opened_ends_alone(
    rt: HostRuntime,
) -> Result<(), Fail> {
    let seats = ["decisions.txt", "redo.txt", "shut", "decisions.txt"];
    let shared = Request::Debug {
        setup: "two.json",
        seats: Vec::from_slice(rt.alloc(), &seats)?,
        from: None,
        journal: Some("kept.txt"),
        page: None,
    };
    let ended = performed(&rt, action(&shared), ALL_GOOD);
    let journal = str::from_utf8(ended.output.as_slice())?;
    // In which order the seats come is not known.
    for line in &["1 decisions\n", "2 redo\n", "4 decisions\n"] {
        assert!(rt; journal.contains(*line));
    }
    assert_eq!(rt; journal.len(), 31);
    let error = str::from_utf8(ended.error.as_slice())?;
    assert_eq!(rt;
        (ended.status, error),
        (3, "seat 3: cannot read the input\n")
    );
    Ok(())
}
