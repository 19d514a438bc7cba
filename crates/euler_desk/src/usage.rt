//! What is wrong with the words, at which word, and what to do about it, for people.

use command_line::{UsageKind, WordsFault, desk_row, key_help, read_desk_words, row_help};
use run_help::{asks_for_help, is_given, key_of, nearest, usage_advice};
use std::alloc::{AllocError, Global};
use std::io;

// Tells what the program is for, what its words are and where its manual is.
fn explain_program(rt: &impl Eprint, line: &str) -> io::Result<()> {
    eprint!(rt;
        "euler_desk answers what would be: a script asks up to sixteen slots over one problem, each with its own statements, for possible worlds\nusage: {line}\nthe manual is `man euler_desk`, where it is installed; in the repository docs/GUIDE.md shows how to use the program, and docs/FORMATS.md has every word and line\n"
    )
}

// Whether words have this first fault.
fn has_fault(alloc: Global, words: &[String], kind: UsageKind) -> bool {
    match read_desk_words(alloc, words) {
        Err(WordsFault::Usage(found)) => found == kind,
        _ => false,
    }
}

// The word with which words come to have a fault: those before it have another, since a key is missing or nothing is wrong.
fn first_wrong(alloc: Global, words: &[String], kind: UsageKind) -> &str {
    for count in 1..=words.len() {
        if has_fault(alloc, &words[..count], kind) {
            return words[count - 1].as_str();
        }
    }
    ""
}

// The first key that must be given and that no word gives.
fn first_missing(alloc: Global, words: &[String]) -> Result<String, AllocError> {
    for key in desk_row().required {
        if !is_given(words, key.name()) {
            return key_help(alloc, *key);
        }
    }
    Ok(String::new(alloc))
}

// What is wrong or missing among the words.
fn wrong_word(alloc: Global, words: &[String], kind: UsageKind) -> Result<String, AllocError> {
    match kind {
        UsageKind::MissingKey => first_missing(alloc, words),
        _ => String::from_str(alloc, first_wrong(alloc, words, kind)),
    }
}

// The key that a word's is most likely meant for; empty where there is none.
fn meant(alloc: Global, kind: UsageKind, word: &str) -> Result<&'static str, AllocError> {
    let mut names = Vec::new(alloc);
    if kind == UsageKind::UnknownKey {
        let row = desk_row();
        for key in row.required.iter().chain(row.optional) {
            names.push(key.name())?;
        }
    }
    nearest(alloc, key_of(word), &names)
}

/// Tells what is wrong with words that are no request: the program's line, and the fault last.
pub(crate) fn explain_usage(
    rt: &impl Eprint,
    alloc: Global,
    words: &[String],
    kind: UsageKind,
) -> io::Result<()> {
    let help = row_help(alloc, &desk_row())?;
    let line = help.as_str().trim();
    if asks_for_help(words) {
        return explain_program(rt, line);
    }
    eprintln!(rt; "usage: {line}")?;
    let word = wrong_word(alloc, words, kind)?;
    let name = meant(alloc, kind, word.as_str())?;
    let colon = if word.is_empty() { "" } else { ": " };
    if name.is_empty() {
        let advice = usage_advice(kind);
        eprintln!(rt; "{word}{colon}{kind}; {advice}")
    } else {
        eprintln!(rt; "{word}{colon}{kind}; is it {name}?")
    }
}
