//! What a session shows before its first prompt.

ghost use Rattle.std.specs.Prelude.{◌≡◌, IfOk};
ghost use Rattle.cdb_text.specs.Pushes.{Pushes};
ghost use Rattle.cdb_session.specs.Greetings.{algorithm_words, greeting_text, greeting_at, loss_words, process_word};

use cdb_base::NoMemory;
use cdb_setup::{Algorithm, Setup};
use std::alloc::{AllocError, Global};

/// The algorithm in words.
fn algorithm_words(algorithm: Algorithm) -> &'static str
    ensures { result.now ≡ algorithm_words algorithm }
{
    match algorithm {
        Algorithm::Leader => "leader-based consensus",
        Algorithm::Alpha => "Alpha over registers",
    }
}

/// The word behind a number of processes.
fn process_word(n: u8) -> &'static str
    ensures { result.now ≡ process_word n }
{
    if n == 1 { "process" } else { "processes" }
}

/// Whether copies can be lost, in words.
fn loss_words(version: u8) -> &'static str
    ensures { result.now ≡ loss_words version }
{
    if version == 2 {
        "copies can be lost"
    } else {
        "no copy is lost"
    }
}

/// Adds the setup in words.
fn push_greeting(text: &mut String, setup: &Setup) -> Result<(), AllocError>
    ensures { Pushes result text.old text.new (greeting_text setup.now) }
{
    let (algorithm, losses) = (
        algorithm_words(setup.algorithm()),
        loss_words(setup.version()),
    );
    let (n, q) = (setup.n(), setup.q());
    let processes = process_word(n);
    writeln!(
        text,
        "{algorithm}, {n} {processes}, quorum {q}, {losses}; help lists the commands"
    )
}

/// The setup in words, as a line: the algorithm, how many processes there are, the quorum, whether copies can be lost,
/// and how to get help.
pub fn greeting_text(alloc: Global, setup: &Setup) -> Result<Vec<u8>, NoMemory>
    ensures { IfOk result (λ text. text.items ≡ greeting_text setup.now) }
{
    let mut text = String::new(alloc);
    push_greeting(&mut text, setup)?;
    Ok(text.into_bytes())
}

/// What a session with this prompt shows before it: the greeting, and nothing where the prompt has no bytes.
pub fn greeting_at<'a>(greeting: &'a [u8], prompt: &[u8]) -> &'a [u8]
    ensures { result.now ≡ greeting_at prompt.now greeting.now }
{
    if prompt.is_empty() { &[] } else { greeting }
}
