//! What people are told of a file that can't be read or written: which one, by a row of the table.

use crate::line::is_there;
use crate::words::{command_of, files_of, value_in, value_of};
use command_line::{Command, Key};
use outer_store::FileStore;
use std::alloc::{AllocError, Global};
use std::io;

// So many parts there are at the most.
const MOST_PARTS: u32 = 5000;

// Names, each but the first behind this word.
fn joined(alloc: Global, names: &[&str], between: &str) -> Result<String, AllocError> {
    let mut text = String::new(alloc);
    for (place, name) in names.iter().enumerate() {
        if place > 0 {
            text.push_str(between)?;
        }
        text.push_str(name)?;
    }
    Ok(text)
}

// The names of the tokens of parts: the first so many that there may be, each with its number.
fn numbered(alloc: Global, token: &str) -> Result<Vec<String>, AllocError> {
    let mut names = Vec::new(alloc);
    for number in 1..=MOST_PARTS {
        names.push(format!(in alloc; "{token}{number}")?)?;
    }
    Ok(names)
}

// The files that a command may write.
fn files_written(alloc: Global, words: &[String]) -> Result<Vec<String>, AllocError> {
    let mut names = Vec::new(alloc);
    match command_of(words) {
        Some(Command::Parts) => return numbered(alloc, value_of(words, Key::Token)),
        Some(command) => {
            for name in files_of(alloc, words, command.writes())? {
                names.push(String::from_str(alloc, name)?)?;
            }
        }
        None => {}
    }
    Ok(names)
}

// Which files can't have been written: where they are many, how their names begin.
fn told_written(alloc: Global, words: &[String], names: &[String]) -> Result<String, AllocError> {
    let mut text = String::new(alloc);
    if let Some(Command::Parts) = command_of(words) {
        let token = value_of(words, Key::Token);
        write!(text, " or {token}1, {token}2 and so on")?;
        return Ok(text);
    }
    for name in names {
        let name = name.as_str();
        write!(text, " or {name}")?;
    }
    Ok(text)
}

// The first of some names that is not there; all of them, where each is.
fn unread(rt: &HostRuntime, names: &[&str]) -> Result<String, AllocError> {
    for name in names {
        if !is_there(rt, name) {
            return String::from_str(rt.alloc(), name);
        }
    }
    joined(rt.alloc(), names, " or ")
}

/// Tells that a file can't be read whose name words give one of these keys: which one, where one of several is not there.
pub fn explain_read(rt: &HostRuntime, words: &[String], keys: &[Key]) -> io::Result<()> {
    let names = files_of(rt.alloc(), words, keys)?;
    let told = unread(rt, &names)?;
    eprintln!(rt;
        "{told}: this file can't be read; check that it exists, that it is not a folder, and that you may read it"
    )
}

// The word that gives a file this name; the name, where none does.
fn word_naming<'a>(words: &'a [String], name: &'a str) -> &'a str {
    for word in words.iter().skip(1) {
        if value_in(word.as_str()) == name {
            return word.as_str();
        }
    }
    name
}

/// Tells that something can't be written, or that two words name one file, which the second would have replaced.
pub fn explain_write(
    rt: &HostRuntime,
    words: &[String],
    store: &FileStore<'_, HostRuntime>,
) -> io::Result<()> {
    let names = files_written(rt.alloc(), words)?;
    for name in names.iter() {
        let name = name.as_str();
        if let Some(other) = store.kept_as(name) {
            let (first, second) = (word_naming(words, other), word_naming(words, name));
            return eprintln!(rt;
                "{first} and {second} name one file, so what it holds was kept and the run ended there; give another name for what is to be written"
            );
        }
    }
    let told = told_written(rt.alloc(), words, &names)?;
    eprintln!(rt;
        "standard output{told} can't be written: whoever read it may have stopped early, as `head` does; or check that the folder exists, that you may write there and that there is room. What was written is not whole"
    )
}
