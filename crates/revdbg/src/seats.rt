//! The names of files and of seats, and what is shown at a terminal before anything is read.

ghost use Rattle.std.specs.Prelude.{◌≡◌, ◌↔◌, [], codes, if◌then◌else◌, vec_len, IsTrue, MatchOption};
ghost use Rattle.revdbg.specs.System.{HasColon, IsOfSeat, IsPair, count_of, hint_at, path_of};

use std::io;

/// The path of what is read where this name is given: `-` names standard input.
pub fn path_of<'a>(name: &'a str) -> &'a str
    ensures { result.now ≡ path_of name.entry.now }
{
    if name == "-" { "/dev/stdin" } else { name }
}

/// The prompt of a session whose input is a terminal, or is none.
pub fn prompt_at(is_terminal: bool) -> &'static str
    ensures { result.now ≡ (if is_terminal then codes "> " else []) }
{
    if is_terminal { "> " } else { "" }
}

/// What is said before a script is read from standard input, where that is a terminal: else nobody would know that it
/// is waited for. The program's name is the first of the arguments.
pub fn hint_at(is_terminal: bool, arguments: &io::Result<Vec<String>>) -> &'static str
    ensures { result.now ≡ hint_at is_terminal (count_of (λ words. vec_len words) arguments.now) }
{
    if is_terminal && arguments.as_ref().is_ok_and(|words| words.len() == 1) {
        "reading a script up to the end of input; revdbg --help says what else there is\n"
    } else {
        ""
    }
}

/// The name of the file that a seat reads.
#[derive(Clone, Copy)]
pub struct InputName<'a>(pub &'a str);

/// The name of the file that a seat writes.
#[derive(Clone, Copy)]
pub struct OutputName<'a>(pub &'a str);

/// The file that a seat `IN:OUT` reads and the one that it writes, cut at the first colon; none for the name of a
/// terminal.
pub fn pair_of(name: &str) -> Option<(InputName<'_>, OutputName<'_>)>
    ensures { MatchOption result (HasColon name.now → ⊥)
        (λ pair. IsPair name.now pair.0.0.now pair.1.0.now) }
{
    match name.split_once(':') {
        Some((input, output)) => Some((InputName(input), OutputName(output))),
        None => None,
    }
}

/// Whether this is the name of a seat, or of the file that it reads or the one that it writes.
pub fn is_of_seat(seat: &str, name: &str) -> bool
    ensures { IsTrue result ↔ IsOfSeat seat.now name.now }
{
    match pair_of(seat) {
        Some((input, output)) => name == seat || name == input.0 || name == output.0,
        None => name == seat,
    }
}
