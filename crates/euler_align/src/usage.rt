//! What is wrong with the words, at which word, and what to do about it, for people.

use align_top::{
    Command, Key, KeyKind, UsageKind, WordsFault, command_help, key_help, read_words, usage_help,
};
use run_help::{command_of, is_given, key_of, kind_of, nearest, usage_advice};
use std::alloc::{AllocError, Global};
use std::io;
use world_watch::WorldWatcher;

/// Tells what the program is for, what its words are and where its manual is.
pub(crate) fn explain_program(rt: &impl Eprint, alloc: Global) -> io::Result<()> {
    let help = usage_help(alloc)?;
    eprint!(rt;
        "euler_align reconciles two to eight classifications of the same things\n{help}the manual is `man euler_align`, where it is installed; in the repository docs/GUIDE.md shows how to use the program, and docs/FORMATS.md has every word and file\n"
    )
}

// Whether words have this first fault.
fn has_fault(
    alloc: Global,
    words: &[String],
    watchers: &Vec<Box<dyn WorldWatcher>>,
    kind: UsageKind,
) -> bool {
    match read_words(alloc, words, watchers) {
        Err(WordsFault::Usage(found)) => found == kind,
        _ => false,
    }
}

// The word with which words come to have a fault: those before it have another, since a key is missing or nothing is wrong.
fn first_wrong<'a>(
    alloc: Global,
    words: &'a [String],
    watchers: &Vec<Box<dyn WorldWatcher>>,
    kind: UsageKind,
) -> &'a str {
    for count in 1..=words.len() {
        if has_fault(alloc, &words[..count], watchers, kind) {
            return words[count - 1].as_str();
        }
    }
    ""
}

// The first key that the command must have and no word gives.
fn first_missing(alloc: Global, words: &[String]) -> Result<String, AllocError> {
    let Some(command) = command_of(words) else {
        return Ok(String::new(alloc));
    };
    for key in command.required() {
        if !is_given(words, key.name()) {
            return key_help(alloc, *key);
        }
    }
    Ok(String::new(alloc))
}

// What is wrong or missing among the words, where that is one word or key.
fn wrong_word(
    alloc: Global,
    words: &[String],
    watchers: &Vec<Box<dyn WorldWatcher>>,
    kind: UsageKind,
) -> Result<String, AllocError> {
    match kind {
        UsageKind::NoCommand => Ok(String::new(alloc)),
        UsageKind::MissingKey => first_missing(alloc, words),
        UsageKind::BudgetWithoutToken => key_help(alloc, Key::Token),
        _ => String::from_str(alloc, first_wrong(alloc, words, watchers, kind)),
    }
}

// What numbers a key of this kind takes.
fn numbers_of(alloc: Global, kind: Option<KeyKind>) -> Result<String, AllocError> {
    let (even, least, most) = match kind {
        Some(KeyKind::EvenNumber { least, most }) => ("n even", least, most),
        Some(KeyKind::Number { least, most }) => ("", least, most),
        _ => ("", 1, u64::MAX),
    };
    format!(in alloc; "give a{even} number from {least} to {most}, without a leading zero")
}

// What to do about a fault of this kind at a word.
fn advice_at(
    alloc: Global,
    words: &[String],
    kind: UsageKind,
    word: &str,
) -> Result<String, AllocError> {
    match kind {
        UsageKind::BadNumber | UsageKind::ZeroBudget => numbers_of(alloc, kind_of(words, word)),
        UsageKind::SameName if is_given(words, Key::Count.name()) => String::from_str(
            alloc,
            "the tokens have this name with a number behind it; give one with which in= does not begin",
        ),
        _ => String::from_str(alloc, usage_advice(kind)),
    }
}

// The command that a word, or the key that its key is most likely meant for; empty where there is none.
fn meant(
    alloc: Global,
    words: &[String],
    kind: UsageKind,
    word: &str,
) -> Result<&'static str, AllocError> {
    let mut names = Vec::new(alloc);
    match (kind, command_of(words)) {
        (UsageKind::UnknownCommand, None) => {
            for command in Command::all() {
                names.push(command.name())?;
            }
        }
        (UsageKind::UnknownKey, Some(command)) => {
            for key in command.required().iter().chain(command.optional()) {
                names.push(key.name())?;
            }
        }
        _ => {}
    }
    nearest(alloc, key_of(word), &names)
}

/// Tells what is wrong with words that are no request: the line of the command that is meant, or all where none is, and the fault last.
pub(crate) fn explain_fault(
    rt: &impl Eprint,
    alloc: Global,
    words: &[String],
    watchers: &Vec<Box<dyn WorldWatcher>>,
    kind: UsageKind,
) -> io::Result<()> {
    match command_of(words) {
        Some(command) => {
            let help = command_help(alloc, command)?;
            let line = help.as_str().trim();
            eprintln!(rt; "usage: euler_align {line}")?;
        }
        None => {
            let help = usage_help(alloc)?;
            eprint!(rt; "{help}")?;
        }
    }
    let word = wrong_word(alloc, words, watchers, kind)?;
    let name = meant(alloc, words, kind, word.as_str())?;
    let colon = if word.is_empty() { "" } else { ": " };
    if name.is_empty() {
        let advice = advice_at(alloc, words, kind, word.as_str())?;
        eprintln!(rt; "{word}{colon}{kind}; {advice}")
    } else {
        eprintln!(rt; "{word}{colon}{kind}; is it {name}?")
    }
}
