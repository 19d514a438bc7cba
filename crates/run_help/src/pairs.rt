//! What people are told of a question about two concepts, and of one about all conflicts, that has no answer.

use crate::line::{is_plain, read_again};
use crate::unknown::unknown_name;
use crate::words::{switch_words, value_of};
use command_line::Key;
use run_ends::PairKind;
use std::alloc::{AllocError, Global};
use std::io;
use text_words::reference_of;

// What is wrong with the value of a key that names no concept; nothing where it names one, or where that can't be seen any more.
fn said_of(
    alloc: Global,
    text: &[u8],
    words: &[String],
    key: Key,
) -> Result<Option<String>, AllocError> {
    let name = key.name();
    let value = value_of(words, key);
    let shown = if is_plain(value) { value } else { "" };
    match unknown_name(alloc, text, value)? {
        Some(said) => {
            let said = said.as_str();
            Ok(Some(format!(in alloc; "{name}={shown}: {said}")?))
        }
        None => Ok(None),
    }
}

// Tells which of two words names no concept. Where the problem can't be read once more, as from a pipe, it may be either.
fn explain_unknown(rt: &HostRuntime, words: &[String]) -> io::Result<()> {
    let alloc = rt.alloc();
    let text = read_again(rt, value_of(words, Key::In));
    let mut is_told = false;
    for key in [Key::Left, Key::Right] {
        if let Some(said) = said_of(alloc, &text, words, key)? {
            let said = said.as_str();
            eprintln!(rt; "{said}")?;
            is_told = true;
        }
    }
    if is_told {
        return Ok(());
    }
    eprintln!(rt;
        "left= or right= names no concept of this problem; write the name of its taxonomy, a full stop and its own"
    )
}

/// Tells why two words name no pair of concepts.
pub fn explain_pair(rt: &HostRuntime, words: &[String], kind: PairKind) -> io::Result<()> {
    match kind {
        PairKind::UnknownConcept => explain_unknown(rt, words),
        PairKind::SameConcept => eprintln!(rt;
            "left and right name one concept, which equals itself; give two concepts"
        ),
    }
}

/// Tells that the problem has more statements than all conflicts are looked for among.
pub fn explain_many(rt: &impl Eprint, alloc: Global, words: &[String]) -> io::Result<()> {
    let input = value_of(words, Key::In);
    let switches = switch_words(alloc, words)?;
    eprintln!(rt;
        "{input}: this has more than 128 statements, so their conflicts can't all be listed; `euler_align conflict in={input}{switches}` names one"
    )
}

// Whether two words name concepts of one taxonomy, by what stands before their first full stops.
fn are_of_one(left: &str, right: &str) -> bool {
    match (
        reference_of(left.as_bytes()),
        reference_of(right.as_bytes()),
    ) {
        (Some(one), Some(other)) => one.taxonomy == other.taxonomy,
        _ => false,
    }
}

/// Tells that the statements don't say what was to be explained.
pub fn explain_open(rt: &impl Eprint, alloc: Global, words: &[String]) -> io::Result<()> {
    let (input, left, right) = (
        value_of(words, Key::In),
        value_of(words, Key::Left),
        value_of(words, Key::Right),
    );
    let switches = switch_words(alloc, words)?;
    eprint!(rt;
        "this doesn't follow: a world is possible in which the relation of {left} to {right} is another; "
    )?;
    if are_of_one(left, right) {
        return eprintln!(rt;
            "both are of one taxonomy, so `mir` doesn't tell which relations are possible; ask `explain` with more letters, as in set==>< for all but overlaps and disjoint"
        );
    }
    eprintln!(rt; "`euler_align mir in={input}{switches}` tells which relations are possible")
}
