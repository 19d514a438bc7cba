//! What words say, read once more for people: their command, and the values of its keys.

use command_line::{Command, Key, KeyKind};
use std::alloc::{AllocError, Global};

/// The command of the first word, if it is one.
pub fn command_of(words: &[String]) -> Option<Command> {
    match words.first() {
        Some(word) => Command::named(word.as_str()),
        None => None,
    }
}

/// What stands before the equals sign of a word.
pub fn key_of(word: &str) -> &str {
    match word.split_once('=') {
        Some((key, _)) => key,
        None => word,
    }
}

/// What stands behind it.
pub(crate) fn value_in(word: &str) -> &str {
    match word.split_once('=') {
        Some((_, value)) => value,
        None => "",
    }
}

/// The value of a key; empty where no word gives it.
pub fn value_of<'a>(words: &'a [String], key: Key) -> &'a str {
    for word in words {
        if key_of(word.as_str()) == key.name() {
            return value_in(word.as_str());
        }
    }
    ""
}

/// What the value of a word is, by its key.
pub fn kind_of(words: &[String], word: &str) -> Option<KeyKind> {
    let command = command_of(words)?;
    let key = command.key_named(key_of(word))?;
    Some(key.kind())
}

/// The switches that words give, each behind a space.
pub fn switch_words(alloc: Global, words: &[String]) -> Result<String, AllocError> {
    let mut text = String::new(alloc);
    for word in words {
        let word = word.as_str();
        if let Some(KeyKind::Switch) = kind_of(words, word) {
            write!(text, " {word}")?;
        }
    }
    Ok(text)
}

/// The file names that words give some keys, in the order of the keys.
pub(crate) fn files_of<'a>(
    alloc: Global,
    words: &'a [String],
    keys: &[Key],
) -> Result<Vec<&'a str>, AllocError> {
    let mut names = Vec::new(alloc);
    for key in keys {
        let value = value_of(words, *key);
        if let KeyKind::FileNames = key.kind() {
            for name in value.split(',') {
                names.push(name)?;
            }
        } else if !value.is_empty() {
            names.push(value)?;
        }
    }
    Ok(names)
}
