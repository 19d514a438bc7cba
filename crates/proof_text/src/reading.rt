//! A line, read from its text.

ghost use Rattle.std.specs.Prelude.{◌≡◌, bytes_eq, IfOk};
ghost use Rattle.proof_text.specs.Numbers.{number_in};
ghost use Rattle.lits_core.specs.Derivation.{FromOne};
ghost use Rattle.proof_text.specs.Lines.{Gives, zero_word, id_in, literal_from, literal_in, item_at, first_of, list_of, whole, derive_of, forget_of, line_of_words, line_of, line_text};

use crate::fault::LineTextFault;
use crate::numbers::read_number;
use crate::words::Words;
use lits_core::{Clause, Ids, Line, Lit};
use std::alloc::Global;

/// The greatest number of a variable, counted from 1.
const LAST_VARIABLE: u64 = 1 << 31;

/// The line that bytes without an LF spell, or their first fault from the left.
pub fn read_line(alloc: Global, bytes: &[u8]) -> Result<Line, LineTextFault>
    ensures exact { Gives (λ line. line) result (line_of bytes.now) }

    // No other bytes spell the line, and it can be printed.
    ensures text { IfOk result (λ line. bytes.now ≡ line_text line) }
    ensures ids { IfOk result FromOne }
{
    read_words(alloc, &mut Words::new(bytes, b' '))
}

#[tactic(auto, unfolding(crate::specs::Lines::line_of_words))]
fn read_words(alloc: Global, words: &mut Words) -> Result<Line, LineTextFault>
    ensures { Gives (λ line. line) result (line_of_words words.old) }
{
    match words.next_word() {
        Some([b'd']) => read_derive(alloc, words),
        Some([b'k']) => read_forget(alloc, words),
        _ => Err(LineTextFault::BadLine),
    }
}

/// A derive line from the words after its `d`.
#[tactic(auto, unfolding(crate::specs::Lines::derive_of))]
pub fn read_derive(alloc: Global, words: &mut Words) -> Result<Line, LineTextFault>
    ensures { Gives (λ line. line) result (derive_of words.old) }
{
    let id = read_first_id(words)?;
    let lits = read_literals(alloc, words)?;
    let hints = read_ids(alloc, words)?;
    let lits = Clause::from_lits(alloc, &lits)?;
    let hints = Ids::new(hints);
    whole(words, Line::Derive { id, lits, hints })
}

/// A forget line from the words after its `k`.
#[tactic(auto, unfolding(crate::specs::Lines::forget_of))]
pub fn read_forget(alloc: Global, words: &mut Words) -> Result<Line, LineTextFault>
    ensures { Gives (λ line. line) result (forget_of words.old) }
{
    let ids = read_ids(alloc, words)?;
    let ids = Ids::new(ids);
    whole(words, Line::Forget { ids })
}

fn read_first_id(words: &mut Words) -> Result<u64, LineTextFault>
    ensures { Gives (λ id. (id, words.new)) result (first_of id_in words.old) }
{
    match words.next_word() {
        Some(word) => read_id(word),
        None => Err(LineTextFault::BadLine),
    }
}

/// The ids up to the word `0`, which is taken off too.
fn read_ids(alloc: Global, words: &mut Words) -> Result<Vec<u64>, LineTextFault>
    ensures { Gives (λ ids. (ids.items, words.new)) result (list_of id_in words.old) }
{
    let mut ids = Vec::new(alloc);
    while let Some(word) = words.next_word() {
        if is_zero_word(word) {
            return Ok(ids);
        }
        ids.push(read_id(word)?)?;
    }
    Err(LineTextFault::BadLine)
}

/// The literals up to the word `0`, which is taken off too.
fn read_literals(alloc: Global, words: &mut Words) -> Result<Vec<Lit>, LineTextFault>
    ensures { Gives (λ lits. (lits.items, words.new)) result (list_of literal_in words.old) }
{
    let mut lits = Vec::new(alloc);
    while let Some(word) = words.next_word() {
        if is_zero_word(word) {
            return Ok(lits);
        }
        lits.push(read_literal(word)?)?;
    }
    Err(LineTextFault::BadLine)
}

/// The line, if no word is left.
fn whole(words: &mut Words, line: Line) -> Result<Line, LineTextFault>
    ensures { result ≡ whole words.old line }
{
    match words.next_word() {
        Some(_) => Err(LineTextFault::BadLine),
        None => Ok(line),
    }
}

fn is_zero_word(word: &[u8]) -> bool
    ensures { result ≡ bytes_eq word.now zero_word }
{
    word == b"0".as_slice()
}

fn read_id(word: &[u8]) -> Result<u64, LineTextFault>
    ensures { result ≡ item_at id_in word.now }
{
    number_at(word, 1, u64::MAX)
}

/// The number from low to high that a word is, where such a number is to stand. An empty word is a bad line, and any
/// other that is no such number a bad number.
pub fn number_at(word: &[u8], low: u64, high: u64) -> Result<u64, LineTextFault>
    ensures { result ≡ item_at (number_in low high) word.now }
{
    if word.is_empty() {
        return Err(LineTextFault::BadLine);
    }
    read_number(word, low, high).ok_or(LineTextFault::BadNumber)
}

fn read_literal(word: &[u8]) -> Result<Lit, LineTextFault>
    ensures { result ≡ item_at literal_in word.now }
{
    if word.is_empty() {
        return Err(LineTextFault::BadLine);
    }
    literal_of_word(word).ok_or(LineTextFault::BadNumber)
}

#[tactic(auto, unfolding(crate::specs::Lines::literal_in))]
fn literal_of_word(word: &[u8]) -> Option<Lit>
    ensures { result ≡ literal_in word.now }
{
    let [first, digits @ ..] = word else {
        return None;
    };
    if *first == b'-' {
        literal_of_digits(digits, true)
    } else {
        literal_of_digits(word, false)
    }
}

fn literal_of_digits(digits: &[u8], negative: bool) -> Option<Lit>
    ensures { result ≡ literal_from negative digits.now }
{
    let number = read_number(digits, 1, LAST_VARIABLE)?;
    Some(Lit::new((number - 1) as u32, negative))
}
