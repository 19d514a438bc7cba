//! Bytes as the words of a token.
ghost use Rattle.std.specs.Prelude.{◌≡◌, ◌==◌, option_map};
ghost use Rattle.std.specs.List.{list_all};
ghost use Rattle.run_ends.specs.Token.Contents.{is_digest_byte, is_digest, ended_by, second_version, contents_of_words, contents_of_lines, contents_of, meant};

use proof_text::{Words, read_number};

/// The most bytes of a token.
const TOKEN_LIMIT: usize = 1_048_576;

/// The most pairs of concepts that a problem has.
const PAIR_LIMIT: u64 = 523_776;

/// Of which problem a token is, and its position as a word.
#[derive(Clone, Copy)]
pub(crate) struct Contents<'a> {
    pub(crate) taxonomies: u64,
    /// Version 1 doesn't tell it.
    pub(crate) pairs: Option<u64>,
    pub(crate) digest: &'a [u8],
    pub(crate) position: &'a [u8],
}

fn is_digest_byte(b: u8) -> bool
    ensures { result ≡ is_digest_byte b }
{
    matches!(b, b'0'..=b'9' | b'a'..=b'f')
}

fn has_digest_bytes(word: &[u8]) -> bool
    ensures { result ≡ list_all is_digest_byte word.now }
{
    word.iter().all(|b| is_digest_byte(*b))
}

/// Whether a word is 64 hexadecimal digits, their letters in lower case.
fn is_digest(word: &[u8]) -> bool
    ensures { result ≡ is_digest word.now }
{
    word.len() == 64 && has_digest_bytes(word)
}

/// The contents whose last words are a digest and a position, and no more.
fn ended_by<'a>(taxonomies: u64, pairs: Option<u64>, mut words: Words<'a>) -> Option<Contents<'a>>
    ensures { option_map meant result ≡ ended_by taxonomies pairs words.entry }
{
    let (Some(digest), Some(position), None) = (
        words.next_word(),
        words.next_word(),
        words.next_word(),
    ) else {
        return None;
    };
    if !is_digest(digest) || position.is_empty() {
        return None;
    }
    Some(Contents {
        taxonomies,
        pairs,
        digest,
        position,
    })
}

fn second_version<'a>(mut words: Words<'a>) -> Option<Contents<'a>>
    ensures { option_map meant result ≡ second_version words.entry }
{
    let (Some(taxonomies), Some(pairs)) = (words.next_word(), words.next_word()) else {
        return None;
    };
    let (Some(taxonomies), Some(pairs)) = (
        read_number(taxonomies, 2, 8),
        read_number(pairs, 0, PAIR_LIMIT),
    ) else {
        return None;
    };
    ended_by(taxonomies, Some(pairs), words)
}

fn contents_of_words<'a>(mut words: Words<'a>) -> Option<Contents<'a>>
    ensures { option_map meant result ≡ contents_of_words words.entry }
{
    let (Some(word), Some(version)) = (words.next_word(), words.next_word()) else {
        return None;
    };
    if word != b"token".as_slice() {
        return None;
    }
    match version {
        b"1" => ended_by(2, None, words),
        b"2" => second_version(words),
        _ => None,
    }
}

fn contents_of_lines<'a>(mut lines: Words<'a>) -> Option<Contents<'a>>
    ensures { option_map meant result ≡ contents_of_lines lines.entry }
{
    let (Some(line), Some(rest), None) = (lines.next_word(), lines.next_word(), lines.next_word())
    else {
        return None;
    };
    if !rest.is_empty() {
        return None;
    }
    contents_of_words(Words::new(line, b' '))
}

/// The contents of bytes that are a token.
pub(crate) fn contents_of(bytes: &[u8]) -> Option<Contents<'_>>
    ensures { option_map meant result ≡ contents_of bytes.now }
{
    if bytes.len() > TOKEN_LIMIT {
        return None;
    }
    contents_of_lines(Words::new(bytes, b'\n'))
}
