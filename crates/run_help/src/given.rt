//! The words that a program is given.

use std::{env, io};

/// Why there are no words to go by.
#[derive(Clone, Copy)]
pub enum NoWords {
    /// The system gives none.
    Refused,
    NoMemory,
}

impl NoWords {
    /// The exit code.
    pub fn code(self) -> u8 {
        match self {
            NoWords::Refused => 2,
            NoWords::NoMemory => 9,
        }
    }
}

// Why the words were not given.
fn no_words(error: io::Error) -> NoWords {
    match error.kind() {
        io::ErrorKind::OutOfMemory => NoWords::NoMemory,
        _ => NoWords::Refused,
    }
}

/// The words after the program's name.
pub fn given_words(rt: &HostRuntime) -> Result<Vec<String>, NoWords> {
    let mut words = Vec::new(rt.alloc());
    let args = env::args(rt).map_err(no_words)?;
    for word in args.skip(1) {
        words.push(word).map_err(|_| NoWords::NoMemory)?;
    }
    Ok(words)
}
