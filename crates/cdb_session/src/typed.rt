//! The line that a line stands for, as it is typed.

ghost use Rattle.std.specs.Prelude.{◌≡◌, ◌≤◌, ◌∷◌, [], length, map, false, IfSome, IfNone, IfOk, OnOk};
ghost use Rattle.std.specs.Char.{is_ascii_digit};
ghost use Rattle.std.specs.List.{join_with_byte, list_all, slice_split, before_first, after_first};
ghost use Rattle.cdb_session.specs.Typed.{is_blank, is_comment, is_mark, is_digits, is_name, is_word, due, full};
ghost use Rattle.cdb_session.specs.Typed.{second_words, with_word, with_piece, words_meant, line_meant};
ghost use Rattle.cdb_session.specs.TypedWords.{texts_of, pieces_left, bytes_left};

use crate::topic::FIRST;
use cdb_base::limits::MAX_BYTES;
use std::alloc::{AllocError, Global};

/// Whether a byte stands between words.
pub(crate) fn is_blank(byte: u8) -> bool
    ensures { result ≡ is_blank byte }
{
    byte == b' ' || byte == b'\t' || byte == b'\r'
}

/// Whether a piece begins a comment.
pub(crate) fn is_comment(piece: &[u8]) -> bool
    ensures { result ≡ is_comment piece.now }
{
    match piece {
        [first, ..] => *first == b'#',
        [] => false,
    }
}

/// Whether a byte stands between the two numbers of a name.
fn is_mark(byte: u8) -> bool
    ensures { result ≡ is_mark byte }
{
    byte == b'.' || byte == b'#'
}

/// Whether each byte is a digit.
fn all_digits(word: &[u8]) -> bool
    ensures { result ≡ list_all is_ascii_digit word.now }
{
    word.iter().all(|byte| byte.is_ascii_digit())
}

/// Whether a word is written in digits.
pub(crate) fn is_digits(word: &[u8]) -> bool
    ensures { result ≡ is_digits word.now }
{
    !word.is_empty() && all_digits(word)
}

/// The first piece of a line, and what is left after the blank that follows it.
fn first_piece(line: &[u8]) -> (&[u8], Option<&[u8]>)
    ensures pieces { slice_split is_blank line.now ≡ result.0.now ∷ pieces_left result.1 }
    ensures shorter { bytes_left result.1 ≤ length line.now }
{
    match line.iter().position(|byte| is_blank(*byte)) {
        Some(end) => (&line[..end], Some(&line[end + 1..])),
        None => (line, None),
    }
}

/// What stands before the first mark of a piece, and what stands after it, if it has a mark.
#[tactic(auto, using(std::proofs::lemmas::List::take_rest, std::proofs::lemmas::List::Sums::position_or_len_is))]
fn halves(piece: &[u8]) -> Option<(&[u8], &[u8])>
    ensures none { IfNone result (is_name piece.now ≡ false) }
    ensures one { IfSome result (λ it. it.0.now ≡ before_first is_mark piece.now) }
    ensures other { IfSome result (λ it. it.1.now ≡ after_first is_mark piece.now) }
{
    match piece.iter().position(|byte| is_mark(*byte)) {
        Some(at) => Some((&piece[..at], &piece[at + 1..])),
        None => None,
    }
}

/// Whether a piece is a name as it is printed.
pub(crate) fn is_name(piece: &[u8]) -> bool
    ensures { result ≡ is_name piece.now }
{
    match halves(piece) {
        Some((one, other)) => is_digits(one) && is_digits(other),
        None => false,
    }
}

/// Whether a piece is a word: one without bytes is none, nor is `to`.
pub(crate) fn is_word(piece: &[u8]) -> bool
    ensures { result ≡ is_word piece.now }
{
    !piece.is_empty() && piece != b"to".as_slice()
}

/// What a process may be told to do.
pub(crate) const ACTS: [&[u8]; 5] = [b"go", b"learn", b"crash", b"query", b"recv"];

/// Where a run may be made to stop.
pub(crate) const STOPS: [&[u8]; 4] = [b"decide", b"round", b"recv", b"write"];

/// What may be shown besides a process.
pub(crate) const VIEWS: [&[u8]; 3] = [b"regs", b"mail", b"history"];

/// What stands before the name of a copy.
pub(crate) const LOST: [&[u8]; 1] = [b"lost"];

/// The words that may follow this one at once.
fn second_words(first: &[u8]) -> &'static [&'static [u8]]
    ensures { map (λ it. it.now) result.now ≡ second_words first.now }
{
    if first == b"break".as_slice() {
        &STOPS
    } else if first == b"show".as_slice() {
        &VIEWS
    } else if first == b"undo".as_slice()
        || first == b"rollback".as_slice()
        || first == b"why".as_slice()
    {
        &LOST
    } else if first == b"help".as_slice() {
        &FIRST
    } else {
        &[]
    }
}

/// The words that may follow these.
fn due(words: &[&[u8]]) -> &'static [&'static [u8]]
    ensures { map (λ it. it.now) result.now ≡ due (map (λ it. it.now) words.now) }
{
    match words {
        [] => &FIRST,
        [first] => second_words(first),
        [first, _] if *first == b"step".as_slice() => &ACTS,
        _ => &[],
    }
}

/// The one of the words that begins with this one, where no other does; else this one.
fn full<'a>(options: &[&'a [u8]], word: &'a [u8]) -> &'a [u8]
    ensures { result.now ≡ full (map (λ it. it.now) options.now) word.now }
{
    let mut found = None;
    for option in options {
        if option.starts_with(word) {
            if found.is_some() {
                return word;
            }
            found = Some(*option);
        }
    }
    found.unwrap_or(word)
}

/// Adds a word.
fn push_word<'a>(words: &mut Vec<&'a [u8]>, word: &'a [u8]) -> Result<(), AllocError>
    ensures { OnOk result (texts_of words.new ≡ with_word (texts_of words.old) word.now) }
{
    if !is_word(word) {
        return Ok(());
    }
    let meant = full(due(words.as_slice()), word);
    words.push(meant)?;
    Ok(())
}

/// Adds the words of a piece.
fn push_piece<'a>(words: &mut Vec<&'a [u8]>, piece: &'a [u8]) -> Result<(), AllocError>
    ensures { OnOk result (texts_of words.new ≡ with_piece (texts_of words.old) piece.now) }
{
    if let Some((one, other)) = halves(piece) {
        if is_digits(one) && is_digits(other) {
            push_word(words, one)?;
            return push_word(words, other);
        }
    }
    push_word(words, piece)
}

/// The words that a line stands for.
fn words_meant(alloc: Global, line: &[u8]) -> Result<Vec<&[u8]>, AllocError>
    ensures { IfOk result (λ words. texts_of words ≡ words_meant line.now) }
{
    let mut words = Vec::new(alloc);
    let mut rest = Some(line);
    while let Some(bytes) = rest {
        let (piece, behind) = first_piece(bytes);
        if is_comment(piece) {
            return Ok(words);
        }
        push_piece(&mut words, piece)?;
        rest = behind;
    }
    Ok(words)
}

/// The words, with one space between each two.
fn joined(alloc: Global, words: &[&[u8]]) -> Result<Vec<u8>, AllocError>
    ensures { IfOk result (λ text. text.items ≡ join_with_byte 32 (map (λ it. it.now) words.now)) }
{
    let mut text = Vec::new(alloc);
    let [first, others @ ..] = words else {
        return Ok(text);
    };
    text.extend_from_slice(first)?;
    for word in others {
        text.push(b' ')?;
        text.extend_from_slice(word)?;
    }
    Ok(text)
}

/// The line that a line stands for, which is given without the byte 10 at its end: names as they are printed, words
/// cut short where they are clear, blanks and a comment are as a person types them. A line of a command stands for
/// itself, and so does one of more than 1,048,576 bytes.
pub fn line_meant(alloc: Global, line: &[u8]) -> Result<Vec<u8>, AllocError>
    ensures { IfOk result (λ text. text.items ≡ line_meant line.now) }
{
    if line.len() > MAX_BYTES {
        return line.to_vec(alloc);
    }
    let words = words_meant(alloc, line)?;
    joined(alloc, words.as_slice())
}
