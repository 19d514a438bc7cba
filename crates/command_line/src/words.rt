//! A request from the words, or the first fault of them.
ghost use Rattle.std.specs.Prelude.{◌≡◌, ◌<◌, ◌≤◌, not, length, [], Ok, Err, IfOk, IfSome, IfNone, map, find, bytes_eq, string_bytes, unwrap_or};
ghost use Rattle.std.specs.List.{flat_map, list_any};
ghost use Rattle.std.specs.Option.{option_copied};
ghost use Rattle.command_line.specs.Table.{row_of, key_name, same_key, command_named};
ghost use Rattle.command_line.specs.Words.{is_equals, cut_word, key_among, key_in, limit_of, lacks_token, is_among, file_names, has_same_name, gives_numbered, is_given, operand_of, operands_of, value_of, is_lacking, request_from, request_of, IfUsage};
ghost use Rattle.command_line.specs.Requests.{IsMade};

use crate::kinds::{KnownNames, is_among};
use crate::make::make_request;
use crate::values::{is_numbered, names_by, number_of, value_fault};
use crate::{Command, Key, Operand, Request, Row, UsageKind, Word, WordsFault};
use std::alloc::{AllocError, Global};

impl Command {
    /// The command of a word.
    pub fn named(word: &str) -> Option<Command>
        ensures { result ≡ command_named word.now }
    {
        Command::all()
            .iter()
            .find(|command| word == command.name())
            .copied()
    }

    /// Its key of this name.
    pub fn key_named(self, name: &str) -> Option<Key>
        ensures { result ≡ key_in (row_of self) name.now }
    {
        self.row().key_named(name)
    }
}

impl Row {
    /// Its key of this name.
    #[tactic(auto, using(crate::proofs::WordsLemmas::key_rules))]
    pub fn key_named(&self, name: &str) -> Option<Key>
        ensures { result ≡ key_in self.now name.now }
    {
        match key_among(self.required, name) {
            Some(key) => Some(key),
            None => key_among(self.optional, name),
        }
    }

    /// Whether a required key is missing.
    pub(crate) fn is_lacking(&self, operands: &[Operand]) -> bool
        ensures { result ≡ is_lacking self.now operands.now }
    {
        self.required.iter().any(|key| !is_given(operands, *key))
    }
}

impl Key {
    fn is_named(self, name: &str) -> bool
        ensures { result ≡ bytes_eq name.now (key_name self) }
    {
        name == self.name()
    }

    // Keys are told apart by how they are written.
    fn is(self, other: Key) -> bool
        ensures { result ≡ same_key self other }
    {
        self.name() == other.name()
    }
}

// The first of the keys with this name.
fn key_among(keys: &[Key], name: &str) -> Option<Key>
    ensures { result ≡ key_among keys.now name.now }
{
    keys.iter().find(|key| key.is_named(name)).copied()
}

// The key's name and the value.
#[tactic(auto, using(crate::proofs::WordsLemmas::cut_rules))]
fn cut_word(word: &str) -> Option<(&str, &str)>
    ensures cut { IfSome result (λ parts. cut_word word.now ≡ Some (parts.0.now, parts.1.now)) }
    ensures whole { IfNone result (cut_word word.now ≡ None) }
{
    word.split_once('=')
}

fn is_given(operands: &[Operand], key: Key) -> bool
    ensures { result ≡ is_given operands.now key }
{
    operands.iter().any(|operand| operand.key.is(key))
}

/// The value of a key, if it is given.
pub(crate) fn value_of(operands: &[Operand], key: Key) -> Option<&str>
    ensures { option_copied result ≡ value_of operands.now key }
{
    operands
        .iter()
        .find(|operand| operand.key.is(key))
        .map(|operand| operand.value.text())
}

/// The number of a key, if it is given.
pub(crate) fn limit_of(operands: &[Operand], key: Key) -> Option<u64>
    ensures { result ≡ limit_of operands.now key }
{
    number_of(value_of(operands, key)?)
}

// Whether a limit is given, but no token.
fn lacks_token(operands: &[Operand]) -> bool
    ensures { result ≡ lacks_token operands.now }
{
    let is_limited = is_given(operands, Key::Nodes) || is_given(operands, Key::Worlds);
    is_limited && !is_given(operands, Key::Token)
}

// The file names that an operand gives.
fn file_names(alloc: Global, operand: &Operand) -> Result<Vec<Word>, AllocError>
    ensures { IfOk result (λ names. names.items ≡ file_names operand.now) }
{
    names_by(alloc, operand.key.kind(), operand.value.text())
}

// Whether one of some names is one of others.
fn have_common(names: &[Word], others: &[Word]) -> bool
    ensures { result ≡ list_any (is_among others.now) names.now }
{
    names.iter().any(|name| is_among(others, name.text()))
}

// The file names that operands give.
fn all_file_names(alloc: Global, operands: &[Operand]) -> Result<Vec<Word>, AllocError>
    ensures { IfOk result (λ names. names.items ≡ flat_map file_names operands.now) }
{
    let mut all = Vec::new(alloc);
    for place in 0..operands.len() {
        let mut names = file_names(alloc, &operands[place])?;
        all.append(&mut names)?;
    }
    Ok(all)
}

/// Whether two operands give one file name.
pub(crate) fn has_same_name(alloc: Global, operands: &[Operand]) -> Result<bool, AllocError>
    ensures { IfOk result (λ same. same ≡ has_same_name operands.now) }
{
    for place in 0..operands.len() {
        let names = file_names(alloc, &operands[place])?;
        let others = all_file_names(alloc, &operands[place + 1..])?;
        if have_common(&names, &others) {
            return Ok(true);
        }
    }
    Ok(false)
}

// Whether parts are asked for, and the problem's file is one that a token may be written to.
fn gives_numbered(operands: &[Operand]) -> bool
    ensures { result ≡ gives_numbered operands.now }
{
    let token = value_of(operands, Key::Token).unwrap_or("");
    let input = value_of(operands, Key::In).unwrap_or("");
    is_given(operands, Key::Count) && is_numbered(token, input)
}

// A further word after the operands before it.
fn read_operand<K: KnownNames>(
    alloc: Global,
    known: &K,
    row: &Row,
    earlier: &[Operand],
    word: &str,
) -> Result<Operand, WordsFault>
    ensures ok { IfOk result (λ operand. operand_of (K.names known.now) row.now earlier.now word.now ≡ Ok operand) }
    ensures usage { IfUsage result (λ kind. operand_of (K.names known.now) row.now earlier.now word.now ≡ Err kind) }
{
    let Some((name, value)) = cut_word(word) else {
        return Err(WordsFault::Usage(UsageKind::NotOperand));
    };
    let Some(key) = row.key_named(name) else {
        return Err(WordsFault::Usage(UsageKind::UnknownKey));
    };
    if is_given(earlier, key) {
        return Err(WordsFault::Usage(UsageKind::KeyTwice));
    }
    if let Some(kind) = value_fault(alloc, known, key.kind(), value)? {
        return Err(WordsFault::Usage(kind));
    }
    let text = String::from_str(alloc, value)?;
    Ok(Operand {
        key,
        value: Word::new(text),
    })
}

/// The words that give a row's keys, from the left.
#[tactic(auto, using(crate::proofs::WordsLemmas::operands_rules))]
pub(crate) fn read_operands<K: KnownNames>(
    alloc: Global,
    known: &K,
    row: &Row,
    words: &[String],
) -> Result<Vec<Operand>, WordsFault>
    ensures ok { IfOk result (λ operands. operands_of (K.names known.now) row.now [] (map string_bytes words.now) ≡ Ok operands.items) }
    ensures usage { IfUsage result (λ kind. operands_of (K.names known.now) row.now [] (map string_bytes words.now) ≡ Err kind) }
{
    let mut operands = Vec::new(alloc);
    'further: for word in words {
        let operand = read_operand(alloc, known, row, &operands, word.as_str())?;
        operands.push(operand)?;
    }
    Ok(operands)
}

// The request of a command with these operands, or what is wrong with them together.
fn request_from(
    alloc: Global,
    command: Command,
    operands: &[Operand],
) -> Result<Request, WordsFault>
    ensures request { IfOk result (λ request. request_from command operands.now ≡ Ok request) }
    ensures usage { IfUsage result (λ kind. request_from command operands.now ≡ Err kind) }
{
    if command.row().is_lacking(operands) {
        return Err(WordsFault::Usage(UsageKind::MissingKey));
    }
    if lacks_token(operands) {
        return Err(WordsFault::Usage(UsageKind::BudgetWithoutToken));
    }
    if has_same_name(alloc, operands)? || gives_numbered(operands) {
        return Err(WordsFault::Usage(UsageKind::SameName));
    }
    Ok(make_request(alloc, command, operands)?)
}

// The request of a command and further words, or the first fault.
fn request_of<K: KnownNames>(
    alloc: Global,
    words: &[String],
    known: &K,
) -> Result<Request, WordsFault>
    ensures request { IfOk result (λ request. request_of (K.names known.now) (map string_bytes words.now) ≡ Ok request) }
    ensures usage { IfUsage result (λ kind. request_of (K.names known.now) (map string_bytes words.now) ≡ Err kind) }
{
    let Some((first, further)) = words.split_first() else {
        return Err(WordsFault::Usage(UsageKind::NoCommand));
    };
    let Some(command) = Command::named(first.as_str()) else {
        return Err(WordsFault::Usage(UsageKind::UnknownCommand));
    };
    let operands = read_operands(alloc, known, &command.row(), further)?;
    request_from(alloc, command, &operands)
}

/// What the words after the program's name ask for, or the first of their faults. Reports are asked for by names that are known.
pub fn read_words<K: KnownNames>(
    alloc: Global,
    words: &[String],
    known: &K,
) -> Result<Request, WordsFault>
    ensures request { IfOk result (λ request. request_of (K.names known.now) (map string_bytes words.now) ≡ Ok request) }
    ensures made { IfOk result (IsMade (K.names known.now)) }
    ensures usage { IfUsage result (λ kind. request_of (K.names known.now) (map string_bytes words.now) ≡ Err kind) }
{
    request_of(alloc, words, known)
}
