//! What is wrong with the value of a key, by the key's kind; and the file names that a value gives.
ghost use Rattle.std.specs.Prelude.{◌≡◌, IfOk};
ghost use Rattle.std.specs.List.{list_any};
ghost use Rattle.proof_text.specs.Numbers.{number_in};
ghost use Rattle.text_words.specs.Words.{set_of_letters};
ghost use Rattle.command_line.specs.Words.{number_of, number_fault, limit_fault, even_fault, set_fault, is_empty_name, file_names_fault, value_fault, names_by, is_numbered};

use crate::kinds::{KnownNames, names_fault, split_names, word_of};
use crate::{KeyKind, UsageKind, Word};
use proof_text::read_number;
use std::alloc::{AllocError, Global};
use text_words::set_of_letters;

// The number that a word is, if it is from the least to the most.
fn number_in(word: &str, least: u64, most: u64) -> Option<u64>
    ensures { result ≡ number_in least most word.now }
{
    read_number(word.as_bytes(), least, most)
}

/// The number that a word is, up to the last value of a u64.
pub(crate) fn number_of(word: &str) -> Option<u64>
    ensures { result ≡ number_of word.now }
{
    number_in(word, 0, u64::MAX)
}

fn number_fault(number: Option<u64>) -> Option<UsageKind>
    ensures { result ≡ number_fault number }
{
    match number {
        Some(_) => None,
        None => Some(UsageKind::BadNumber),
    }
}

fn limit_fault(number: Option<u64>) -> Option<UsageKind>
    ensures { result ≡ limit_fault number }
{
    match number {
        None => Some(UsageKind::BadNumber),
        Some(0) => Some(UsageKind::ZeroBudget),
        Some(_) => None,
    }
}

fn even_fault(number: Option<u64>) -> Option<UsageKind>
    ensures { result ≡ even_fault number }
{
    match number {
        Some(number) if number % 2 == 0 => None,
        _ => Some(UsageKind::BadNumber),
    }
}

fn set_fault(value: &str) -> Option<UsageKind>
    ensures { result ≡ set_fault (set_of_letters value.now) }
{
    match set_of_letters(value.as_bytes()) {
        Some(_) => None,
        None => Some(UsageKind::BadSet),
    }
}

fn has_empty(names: &[Word]) -> bool
    ensures { result ≡ list_any is_empty_name names.now }
{
    names.iter().any(|name| name.text().is_empty())
}

// What is wrong with names of files.
fn file_names_fault(names: &[Word]) -> Option<UsageKind>
    ensures { result ≡ file_names_fault names.now }
{
    if has_empty(names) {
        return Some(UsageKind::EmptyName);
    }
    None
}

/// What is wrong with the value of a key.
pub(crate) fn value_fault<K: KnownNames>(
    alloc: Global,
    known: &K,
    kind: KeyKind,
    value: &str,
) -> Result<Option<UsageKind>, AllocError>
    ensures { IfOk result (λ fault. fault ≡ value_fault (K.names known.now) kind value.now) }
{
    match kind {
        KeyKind::Switch if value == "on" || value == "off" => Ok(None),
        KeyKind::Switch => Ok(Some(UsageKind::BadSwitch)),
        KeyKind::FileName if value.is_empty() => Ok(Some(UsageKind::EmptyName)),
        KeyKind::FileName => Ok(None),
        KeyKind::FileNames => Ok(file_names_fault(&split_names(alloc, value)?)),
        KeyKind::ReportNames => Ok(names_fault(known, &split_names(alloc, value)?)),
        KeyKind::Text => Ok(None),
        KeyKind::Letters => Ok(set_fault(value)),
        KeyKind::Limit => Ok(limit_fault(number_of(value))),
        KeyKind::Number { least, most } => Ok(number_fault(number_in(value, least, most))),
        KeyKind::EvenNumber { least, most } => Ok(even_fault(number_in(value, least, most))),
    }
}

/// Whether a word is another with a number behind it that a part may have.
pub(crate) fn is_numbered(front: &str, word: &str) -> bool
    ensures { result ≡ is_numbered front.now word.now }
{
    match word.as_bytes().strip_prefix(front.as_bytes()) {
        None => false,
        Some(number) => read_number(number, 1, 5000).is_some(),
    }
}

/// The file names that a value gives.
pub(crate) fn names_by(alloc: Global, kind: KeyKind, value: &str) -> Result<Vec<Word>, AllocError>
    ensures { IfOk result (λ names. names.items ≡ names_by kind value.now) }
{
    match kind {
        KeyKind::FileName => {
            let mut names = Vec::new(alloc);
            names.push(word_of(alloc, value)?)?;
            Ok(names)
        }
        KeyKind::FileNames => split_names(alloc, value),
        KeyKind::Switch
        | KeyKind::ReportNames
        | KeyKind::Text
        | KeyKind::Letters
        | KeyKind::Limit
        | KeyKind::Number { .. }
        | KeyKind::EvenNumber { .. } => Ok(Vec::new(alloc)),
    }
}
