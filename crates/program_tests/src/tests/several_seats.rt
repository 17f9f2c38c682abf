//! Sessions of several seats at once, a thread each.

use super::person::{Person, with_lines};
use cdb_any_run::AnyRun;
use cdb_control::{Control, Entry};
use cdb_journal::journal_text;
use cdb_program::Printed;
use cdb_session::begin;
use cdb_shared_session::{
    Endpoint, Finished, Kept, Opener, debug_seats, status_after, write_failures,
};
use cdb_streams::{Output, OutputFault, PlayFault, ReadFault};
use std::alloc::{AllocError, Global};
use std::process::Abort;
use std::sync::Wait;
use std::thread::Threads;
use std::time::Clock;

const THREE: &[u8] =
    b"{\"algorithm\":\"leader\",\"processes\":3,\"quorum\":2,\"inputs\":[5,6,7],\"oracle\":[[1],[1],[1]]}";

/// How the setup greets.
const GREETING: &str =
    "leader-based consensus, 3 processes, quorum 2, no copy is lost; help lists the commands\n";

/// A seat at which this person sits, or one that can't be opened.
#[derive(Drop)]
struct Place {
    person: Option<Person>,
}

impl Opener for Place {
    type Seat = Person;

    ghost opens = { λ place opened. Unit {0} };

    fn open(self, _alloc: Global) -> Result<Endpoint<Person>, ReadFault> {
        match self.person {
            Some(console) => Ok(Endpoint {
                console,
                prompt: b"> ",
            }),
            None => Err(ReadFault::Failed),
        }
    }
}

/// Each seat drives a process of its own, and nothing is sent, so that what it is answered depends on no other. The
/// first can't be written to after its prompt, which is shown in two writes behind the 13 of the greeting, the third
/// can't be read from after its first line, and the fourth can't be opened.
fn four_seats(alloc: Global) -> Result<Vec<Place>, AllocError> {
    let seats: [(&[u8], usize, usize); 3] = [
        (b"auto 1\nauto 1\n", usize::MAX, 15),
        (b"auto 2\nwhy 2 1\n", usize::MAX, usize::MAX),
        (b"auto 3\nauto 3\n", 1, usize::MAX),
    ];
    let mut places = Vec::new(alloc);
    for (lines, good_reads, good_writes) in seats {
        let mut console = with_lines(alloc, lines, 7);
        console.good_reads = good_reads;
        console.good_writes = good_writes;
        let person = Some(console);
        places.push(Place { person })?;
    }
    places.push(Place { person: None })?;
    Ok(places)
}

fn check_ends<R: Abort>(rt: &R, seats: &[Finished<Person>]) {
    let ends = [
        (Err(PlayFault::Write), "1> "),
        (Ok(()), "2> 2.1 query 1\n2> 2.1 because none\n2> "),
        (Err(PlayFault::Read), "3> 3.1 query 1\n3> "),
    ];
    assert!(rt; seats.len() == 4);
    for at in 0..3 {
        assert_eq!(rt; seats[at].outcome, ends[at].0);
        let person = seats[at].console.as_ref().expect(rt, "a console");
        let said = person.said.as_slice();
        assert!(rt; said.starts_with(GREETING.as_bytes()));
        assert!(rt; &said[GREETING.len()..] == ends[at].1.as_bytes());
    }
    assert_eq!(rt; seats[3].outcome, Err(PlayFault::Read));
    assert!(rt; seats[3].console.is_none());
}

/// The command whose response could not be written is in the journal. In which order the seats come is not known.
fn check_journal<R: Abort + AllocGlobal>(rt: &R, journal: &[Entry]) {
    let text = journal_text(rt.alloc(), journal).expect(rt, "a text");
    let text = str::from_utf8(text.as_slice()).expect(rt, "a text");
    for line in ["1 auto 1\n", "2 auto 2\n", "2 why 2 1\n", "3 auto 3\n"] {
        assert!(rt; text.contains(line), "{line}");
    }
    assert_eq!(rt; text.len(), 37);
}

/// The status is that of the least seat that failed.
fn check_report<R: Abort + AllocGlobal>(rt: &R, seats: &[Finished<Person>]) {
    assert!(rt; seats.len() == 4);
    let mut error = Output::new(Vec::new(rt.alloc()));
    let written = write_failures(seats, &Ok(()), &Err(OutputFault::Write), &mut error);
    assert_eq!(rt; written, Ok(()));
    let text =
        "seat 1: output failed\nseat 3: cannot read the input\nseat 4: cannot read the input\njournal: output failed\n";
    assert!(rt; error.into_inner().as_slice() == text.as_bytes());
    assert_eq!(rt; status_after(seats, &Ok(()), &Ok(())), 7);
}

/// Sessions of one run with these, of whom there are four.
fn hold<R: Threads + Wait + Clock + Sync + Abort + AllocGlobal>(
    rt: &R,
    places: Vec<Place>,
) -> (
    Control<AnyRun>,
    Vec<Finished<Person>>,
    Kept<Output<Vec<u8>>>,
) {
    assert!(rt; places.len() == 4);
    let file = Some(Output::new(Vec::new(rt.alloc())));
    let (control, greeting) = begin(rt.alloc(), THREE, b"", 4).expect(rt, "a setup");
    let ended = debug_seats::<AnyRun, Printed, _, _, _>(
        rt,
        rt.alloc(),
        control,
        greeting.as_slice(),
        places,
        file,
    );
    let (control, finished, kept) = ended.expect(rt, "sessions");
    (control, finished, kept.expect(rt, "a journal"))
}

#[test]
fn a_seat_that_fails_ends_alone(rt: HostRuntime) {
    let places = four_seats(rt.alloc()).expect(&rt, "seats");
    let (control, finished, kept) = hold(&rt, places);
    check_journal(&rt, control.journal());
    let text = journal_text(rt.alloc(), control.journal()).expect(&rt, "a text");
    assert_eq!(&rt; kept.outcome, Ok(()));
    assert!(&rt; kept.file.into_inner().as_slice() == text.as_slice());
    control.close();
    check_ends(&rt, finished.as_slice());
    check_report(&rt, finished.as_slice());
}
