//! What single words spell: numbers, letters, switches, positions, bits and sets.

ghost use Rattle.std.specs.Prelude.{◌≡◌, [], ◌∷◌, option_map, Err, IfOk, OnErr};
ghost use Rattle.rcc5_core.specs.Relation.{with_letter};
ghost use Rattle.proof_text.specs.Lines.{Gives, id_in, item_at};
ghost use Rattle.proof_text.specs.declared.fault.LineTextFault.TheVariants.{BadLine};
ghost use Rattle.cert_text.specs.Lines.{small_in, large_in, each_in, spelled_in, switch_at, relation_at, last_at, position_at, end_at, bit_with, bits_at, elements_at};

use crate::line::Flags;
use proof_text::{LineTextFault, Words, number_at, read_number};
use rcc5_core::{Position, Rel};
use std::alloc::{AllocError, Global};

/// The next word, which is taken off. Where none is left the line is a bad one.
pub(crate) fn next_word<'a>(words: &mut Words<'a>) -> Result<&'a [u8], LineTextFault>
    ensures ok { IfOk result (λ word. words.old ≡ word.now ∷ words.new) }
    ensures err { OnErr result (words.old ≡ []) }
    ensures fault { OnErr result (result ≡ Err BadLine) }
{
    words.next_word().ok_or(LineTextFault::BadLine)
}

/// The number below 2^32 that a word is.
fn small_in(word: &[u8]) -> Option<u32>
    ensures { result ≡ small_in word.now }
{
    let number = read_number(word, 0, u64::from(u32::MAX))?;
    Some(number as u32)
}

pub(crate) fn small_at(word: &[u8]) -> Result<u32, LineTextFault>
    ensures { result ≡ item_at small_in word.now }
{
    if word.is_empty() {
        return Err(LineTextFault::BadLine);
    }
    small_in(word).ok_or(LineTextFault::BadNumber)
}

pub(crate) fn need_at(word: &[u8]) -> Result<u64, LineTextFault>
    ensures { result ≡ item_at large_in word.now }
{
    number_at(word, 0, u64::MAX)
}

pub(crate) fn id_at(word: &[u8]) -> Result<u64, LineTextFault>
    ensures { result ≡ item_at id_in word.now }
{
    number_at(word, 1, u64::MAX)
}

pub(crate) fn switch_at(word: &[u8]) -> Result<bool, LineTextFault>
    ensures { result ≡ switch_at word.now }
{
    match word {
        b"on" => Ok(true),
        b"off" => Ok(false),
        _ => Err(LineTextFault::BadLine),
    }
}

pub(crate) fn relation_at(word: &[u8]) -> Result<Rel, LineTextFault>
    ensures { result ≡ relation_at word.now }
{
    let [letter] = word else {
        return Err(LineTextFault::BadLine);
    };
    Rel::from_letter(*letter).ok_or(LineTextFault::BadLine)
}

/// The last relation on the way to a node. The root has a full stop.
pub(crate) fn last_at(word: &[u8]) -> Result<Option<Rel>, LineTextFault>
    ensures { result ≡ last_at word.now }
{
    if word == b".".as_slice() {
        return Ok(None);
    }
    Ok(Some(relation_at(word)?))
}

// The relations that letters stand for, if each stands for one.
#[tactic(auto, using(crate::proofs::EachLemmas::each_rules))]
fn rels_in(alloc: Global, letters: &[u8]) -> Result<Option<Position>, AllocError>
    ensures { IfOk result (λ found. found ≡ each_in with_letter letters.now) }
{
    let mut position = Position::new(alloc);
    let mut rest = letters;
    while let [letter, after @ ..] = rest {
        let Some(rel) = Rel::from_letter(*letter) else {
            return Ok(None);
        };
        position.push(rel)?;
        rest = after;
    }
    Ok(Some(position))
}

fn position_in(alloc: Global, word: &[u8]) -> Result<Option<Position>, AllocError>
    ensures { IfOk result (λ found. found ≡ spelled_in with_letter word.now) }
{
    if word.is_empty() {
        return Ok(None);
    }
    if word == b".".as_slice() {
        return Ok(Some(Position::new(alloc)));
    }
    rels_in(alloc, word)
}

pub(crate) fn position_at(alloc: Global, word: &[u8]) -> Result<Position, LineTextFault>
    ensures { Gives (λ position. position) result (position_at word.now) }
{
    position_in(alloc, word)?.ok_or(LineTextFault::BadLine)
}

/// The position before which a tree ends, or a `-` where it goes on to the end.
pub(crate) fn end_at(alloc: Global, word: &[u8]) -> Result<Option<Position>, LineTextFault>
    ensures { Gives (λ to. to) result (end_at word.now) }
{
    if word == b"-".as_slice() {
        return Ok(None);
    }
    Ok(Some(position_at(alloc, word)?))
}

fn bit_with(byte: u8) -> Option<bool>
    ensures { result ≡ bit_with byte }
{
    match byte {
        b'0' => Some(false),
        b'1' => Some(true),
        _ => None,
    }
}

#[tactic(auto, using(crate::proofs::EachLemmas::each_rules))]
fn each_bit(alloc: Global, bytes: &[u8]) -> Result<Option<Flags>, AllocError>
    ensures { IfOk result (λ found. found ≡ each_in bit_with bytes.now) }
{
    let mut bits = Vec::new(alloc);
    let mut rest = bytes;
    while let [byte, after @ ..] = rest {
        let Some(bit) = bit_with(*byte) else {
            return Ok(None);
        };
        bits.push(bit)?;
        rest = after;
    }
    Ok(Some(Flags::new(bits)))
}

fn bits_in(alloc: Global, word: &[u8]) -> Result<Option<Flags>, AllocError>
    ensures { IfOk result (λ found. found ≡ spelled_in bit_with word.now) }
{
    if word.is_empty() {
        return Ok(None);
    }
    if word == b".".as_slice() {
        return Ok(Some(Flags::new(Vec::new(alloc))));
    }
    each_bit(alloc, word)
}

pub(crate) fn bits_at(alloc: Global, word: &[u8]) -> Result<Flags, LineTextFault>
    ensures { Gives (λ bits. bits) result (bits_at word.now) }
{
    bits_in(alloc, word)?.ok_or(LineTextFault::BadLine)
}

// The numbers that words are, if each is one.
#[tactic(auto, using(crate::proofs::EachLemmas::each_rules))]
fn numbers_in<'a>(alloc: Global, mut words: Words<'a>) -> Result<Option<Vec<u32>>, AllocError>
    ensures { IfOk result (λ found. option_map (λ v. v.items) found ≡ each_in small_in words.entry) }
{
    let mut numbers = Vec::new(alloc);
    while let Some(word) = words.next_word() {
        let Some(number) = small_in(word) else {
            return Ok(None);
        };
        numbers.push(number)?;
    }
    Ok(Some(numbers))
}

/// The elements of a set.
pub(crate) fn elements_at(alloc: Global, word: &[u8]) -> Result<Vec<u32>, LineTextFault>
    ensures { Gives (λ set. set.items) result (elements_at word.now) }
{
    if word.is_empty() {
        return Err(LineTextFault::BadLine);
    }
    if word == b"-".as_slice() {
        return Ok(Vec::new(alloc));
    }
    numbers_in(alloc, Words::new(word, b','))?.ok_or(LineTextFault::BadNumber)
}
