//! Names, references and the words for relations.
ghost use Rattle.std.specs.Prelude.{◌≡◌, ◌&&◌, nat_le, length, IfOk, option_map, bytes_eq};
ghost use Rattle.std.specs.List.{list_all, list_any};
ghost use Rattle.text_words.specs.Words.{is_name_byte, is_name, is_dot, is_taxonomy_name, reference_of, references_of, relation_of_word, set_of_words};
ghost use Rattle.text_words.specs.Views.{words_meant, reference_meant, references_meant};

use crate::lines::cut_at_first;
use rcc5_core::{Rel, RelSet};
use std::alloc::{AllocError, Global};

/// The name of a taxonomy, and the name of a concept in it.
#[derive(Clone, Copy)]
pub struct Reference<'a> {
    pub taxonomy: &'a [u8],
    pub concept: &'a [u8],
}

/// Whether two words have the same bytes.
pub fn is_same(word: &[u8], other: &[u8]) -> bool
    ensures { result ≡ bytes_eq word.now other.now }
{
    word == other
}

fn is_name_byte(b: u8) -> bool
    ensures { result ≡ is_name_byte b }
{
    b >= b' ' && b != 0x7F
}

fn has_name_len(word: &[u8]) -> bool
    ensures { result ≡ (nat_le 1 (length word.now) && nat_le (length word.now) 128) }
{
    word.len() >= 1 && word.len() <= 128
}

fn has_name_bytes(word: &[u8]) -> bool
    ensures { result ≡ list_all is_name_byte word.now }
{
    word.iter().all(|b| is_name_byte(*b))
}

/// Whether a word is a name.
#[tactic(auto, using(crate::proofs::WordLemmas::name_rules))]
pub fn is_name(word: &[u8]) -> bool
    ensures { result ≡ is_name word.now }
{
    has_name_len(word) && has_name_bytes(word)
}

fn has_dot(word: &[u8]) -> bool
    ensures { result ≡ list_any is_dot word.now }
{
    word.iter().any(|b| *b == b'.')
}

/// Whether a word is the name of a taxonomy.
pub fn is_taxonomy_name(word: &[u8]) -> bool
    ensures { result ≡ is_taxonomy_name word.now }
{
    is_name(word) && !has_dot(word)
}

/// The reference that a word is, cut at its first full stop.
#[tactic(auto, using(crate::proofs::WordLemmas::dot_rules))]
pub fn reference_of(word: &[u8]) -> Option<Reference<'_>>
    ensures { option_map reference_meant result ≡ reference_of word.now }
{
    let (taxonomy, concept) = cut_at_first(word, b'.')?;
    if is_name(taxonomy) && is_name(concept) {
        Some(Reference { taxonomy, concept })
    } else {
        None
    }
}

/// The references that words are, if each is one.
#[tactic(auto, using(crate::proofs::WordLemmas::references_rules))]
pub fn references_of<'a>(
    alloc: Global,
    words: &[&'a [u8]],
) -> Result<Option<Vec<Reference<'a>>>, AllocError>
    ensures { IfOk result (λ found. option_map (λ v. references_meant v.items) found ≡ references_of (words_meant words.now)) }
{
    let mut references = Vec::new(alloc);
    let mut rest = words;
    while let [word, after @ ..] = rest {
        let Some(reference) = reference_of(word) else {
            return Ok(None);
        };
        references.push(reference)?;
        rest = after;
    }
    Ok(Some(references))
}

/// The relation that a word stands for.
fn relation_of_word(word: &[u8]) -> Option<Rel>
    ensures { result ≡ relation_of_word word.now }
{
    if is_same(word, b"equals") || is_same(word, b"==") {
        Some(Rel::Equals)
    } else if is_same(word, b"includes") || is_same(word, b">") {
        Some(Rel::Includes)
    } else if is_same(word, b"is_included_in") || is_same(word, b"<") {
        Some(Rel::IncludedIn)
    } else if is_same(word, b"overlaps") || is_same(word, b"><") {
        Some(Rel::Overlaps)
    } else if is_same(word, b"disjoint") || is_same(word, b"!") {
        Some(Rel::Disjoint)
    } else {
        None
    }
}

/// The set of the relations that words stand for, if each stands for one.
#[tactic(auto, using(crate::proofs::WordLemmas::set_rules))]
pub fn set_of_words(words: &[&[u8]]) -> Option<RelSet>
    ensures { result ≡ set_of_words (words_meant words.now) }
{
    let mut set = RelSet::none();
    let mut rest = words;
    while let [word, after @ ..] = rest {
        let Some(rel) = relation_of_word(word) else {
            return None;
        };
        set = set.with(rel);
        rest = after;
    }
    Some(set)
}
