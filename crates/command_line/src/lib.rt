//! What the words of a command line ask for: those of `euler_align`, and those of `euler_desk`.
#![tactic(auto)]

ghost use Rattle.std.specs.Prelude.{◌≡◌, string_bytes};
ghost use Rattle.command_line.specs.declared.WordsFault.TheVariants.{NoMemory};
ghost use Rattle.command_line.specs.Words.{usage_name};

mod desk_words;
mod help;
mod kinds;
mod laws;
mod make;
mod request;
mod table;
mod values;
mod words;

pub use desk_words::read_desk_words;
pub use help::{command_help, fault_place, key_help, row_help, usage_help};
pub use kinds::KnownNames;
pub use laws::rows_name_files;
pub use request::{
    AlignArgs, CheckArgs, ClaimsArgs, DeskArgs, ExplainArgs, JoinArgs, PartArgs, PartsArgs,
    ReportArgs, Request, TrialArgs,
};
use std::alloc::{AllocError, AllocFailed};
use std::fmt;
use std::marker::Model;
pub use table::{Command, Key, KeyKind, Row, desk_row};
use thiserror::Error;
pub use words::read_words;

/// A word, seen as the list of its bytes.
#[derive(Drop)]
pub struct Word {
    text: String,
}

impl Model for Word {
    ghost use Rattle.std.specs.Prelude.{ℕ, List, string_bytes};

    ghost Value = { List ℕ };

    ghost view = { λ word. string_bytes word.text };
}

impl Word {
    pub fn new(text: String) -> Word
        ensures { result ≡ string_bytes text }
    {
        Word { text }
    }

    pub fn text(&self) -> &str
        ensures { result.now ≡ self.now }
    {
        self.text.as_str()
    }
}

/// A list of words, seen as the list of their bytes.
#[derive(Drop)]
pub struct WordList {
    list: Vec<Word>,
}

impl Model for WordList {
    ghost use Rattle.std.specs.Prelude.{ℕ, List};

    ghost Value = { List (List ℕ) };

    ghost view = { λ words. words.list.items };
}

impl WordList {
    pub fn new(list: Vec<Word>) -> WordList
        ensures { result ≡ list.items }
    {
        WordList { list }
    }

    pub fn list(&self) -> &[Word]
        ensures { result.now ≡ self.now }
    {
        &self.list
    }
}

/// What is wrong with the words.
#[derive(Clone, Copy, Debug, PartialEq, Eq)]
pub enum UsageKind {
    NoCommand,
    UnknownCommand,
    NotOperand,
    UnknownKey,
    KeyTwice,
    BadSwitch,
    BadNumber,
    BadSet,
    ZeroBudget,
    EmptyName,
    UnknownKind,
    KindTwice,
    MissingKey,
    BudgetWithoutToken,
    SameName,
}

impl UsageKind {
    /// Its name, as it is printed.
    pub fn name(self) -> &'static str
        ensures { result.now ≡ usage_name self }
    {
        match self {
            UsageKind::NoCommand => "NoCommand",
            UsageKind::UnknownCommand => "UnknownCommand",
            UsageKind::NotOperand => "NotOperand",
            UsageKind::UnknownKey => "UnknownKey",
            UsageKind::KeyTwice => "KeyTwice",
            UsageKind::BadSwitch => "BadSwitch",
            UsageKind::BadNumber => "BadNumber",
            UsageKind::BadSet => "BadSet",
            UsageKind::ZeroBudget => "ZeroBudget",
            UsageKind::EmptyName => "EmptyName",
            UsageKind::UnknownKind => "UnknownKind",
            UsageKind::KindTwice => "KindTwice",
            UsageKind::MissingKey => "MissingKey",
            UsageKind::BudgetWithoutToken => "BudgetWithoutToken",
            UsageKind::SameName => "SameName",
        }
    }

    // What is wrong, in words for people.
    fn words(self) -> &'static str {
        match self {
            UsageKind::NoCommand => "there is no command",
            UsageKind::UnknownCommand => "the first word is no command",
            UsageKind::NotOperand => "a word is not KEY=VALUE",
            UsageKind::UnknownKey => "the command has no such key",
            UsageKind::KeyTwice => "a key is given twice",
            UsageKind::BadSwitch => "a switch is neither on nor off",
            UsageKind::BadNumber => "a number is none, or is not one that may stand there",
            UsageKind::BadSet =>
                "a set of relations is empty, or has a byte that is no letter of one",
            UsageKind::ZeroBudget => "a limit is 0",
            UsageKind::EmptyName => "a file name is empty",
            UsageKind::UnknownKind => "there is no report of this kind",
            UsageKind::KindTwice => "a kind of report is given twice",
            UsageKind::MissingKey => "a required key is missing",
            UsageKind::BudgetWithoutToken => "a limit is given, but no file for the token",
            UsageKind::SameName => "two keys name the same file",
        }
    }
}

// Written out, since `thiserror` would write a call of the formatter for each kind, which takes far longer to prove than one.
impl fmt::Display for UsageKind {
    fn fmt<W: fmt::Write>(&self, f: &mut fmt::Formatter<W>) -> fmt::Result {
        f.write_str(self.words())
    }
}

impl std::error::Error for UsageKind {}

/// Why words gave no request.
#[derive(Clone, Copy, Debug, PartialEq, Eq, Error)]
pub enum WordsFault {
    #[error("{0}")]
    Usage(UsageKind),
    #[error("out of memory")]
    NoMemory,
}

impl From<AllocError> for WordsFault {
    ghost from_gives = { λ _ fault. fault ≡ NoMemory };

    fn from(_refused: AllocError) -> Self {
        WordsFault::NoMemory
    }
}

impl<T: Drop> From<AllocFailed<T>> for WordsFault {
    ghost from_gives = { λ _ fault. fault ≡ NoMemory };

    fn from(_refused: AllocFailed<T>) -> Self {
        WordsFault::NoMemory
    }
}

/// A key with its value.
#[derive(Drop)]
pub struct Operand {
    pub key: Key,
    pub value: Word,
}
