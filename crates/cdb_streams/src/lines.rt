//! The lines of a script.

ghost use Rattle.std.specs.Prelude.{◌≡◌, ◌≢◌, ◌+◌, ◌<◌, ◌≤◌, ◌∷◌, [], length, IfSome};
ghost use Rattle.cdb_streams.specs.Lines.{lines_of};

/// The first line, if it is `auto` and a byte, as `auto 1` is, and what follows it. So most lines of a long script are
/// found without a loop.
#[inline(always)]
fn first_auto(script: &[u8]) -> Option<(&[u8], &[u8])>
    ensures lines { IfSome result (λ parts.
        lines_of script.now ≡ parts.0.now ∷ lines_of parts.1.now) }
    ensures shorter { IfSome result (λ parts.
        length parts.0.now + length parts.1.now < length script.now) }
{
    match script {
        [b'a', b'u', b't', b'o', b' ', digit, b'\n', behind @ ..] if *digit != b'\n' => {
            Some((&script[..6], behind))
        }
        _ => None,
    }
}

/// The first line of a script that is not empty, and what follows it.
pub fn first_line(script: &[u8]) -> (&[u8], &[u8])
    requires { 0 < length script.now }
    ensures lines { lines_of script.now ≡ result.0.now ∷ lines_of result.1.now }
    ensures shorter { length result.0.now + length result.1.now ≤ length script.now }
    ensures newline { result.1.now ≢ [] →
        length result.0.now + length result.1.now < length script.now }
{
    if let Some(lines) = first_auto(script) {
        return lines;
    }
    match script.iter().position(|byte| *byte == b'\n') {
        Some(end) => (&script[..end], &script[end + 1..]),
        None => (script, &[]),
    }
}
