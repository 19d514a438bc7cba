//! What lists of names, references and numbers have.
ghost use Rattle.std.specs.Prelude.{◌≡◌, ◌<◌, length, map, position, bytes_eq, IfOk, IfSome};
ghost use Rattle.std.specs.List.{list_any, list_all};
ghost use Rattle.constraint_set.specs.Facts.{all_different};
ghost use Rattle.text_words.specs.Words.{is_name};
ghost use Rattle.text_words.specs.Views.{words_meant, references_meant};

use indexmap::IndexSet;
use std::alloc::{AllocError, Global};
use text_words::{Reference, is_name, is_same};

/// Whether all words are names.
#[tactic(auto, using(text_words::proofs::WordLemmas::list_all_words))]
pub(crate) fn are_names(words: &[&[u8]]) -> bool
    ensures { result ≡ list_all is_name (words_meant words.now) }
{
    all_are_names(words)
}

fn all_are_names(words: &[&[u8]]) -> bool
    ensures { result ≡ list_all (λ word. is_name word.now) words.now }
{
    words.iter().all(|word| is_name(word))
}

/// The names as they are kept.
pub(crate) fn copies(alloc: Global, words: &[&[u8]]) -> Result<Vec<Vec<u8>>, AllocError>
    ensures { IfOk result (λ names. map (λ v. v.items) names.items ≡ words_meant words.now) }
{
    let mut names = Vec::new(alloc);
    let mut rest = words;
    while let [word, after @ ..] = rest {
        names.push(Vec::from_slice(alloc, word)?)?;
        rest = after;
    }
    Ok(names)
}

/// The place of a name among others.
pub(crate) fn place_of(names: &[Vec<u8>], name: &[u8]) -> Option<usize>
    ensures place { result ≡ position (bytes_eq name.now) (map (λ v. v.items) names.now) }
    ensures within { IfSome result (λ at. at < length names.now) }
{
    first_same(names, name)
}

fn first_same(names: &[Vec<u8>], name: &[u8]) -> Option<usize>
    ensures place { result ≡ position (λ known. bytes_eq name.now known.items) names.now }
    ensures within { IfSome result (λ at. at < length names.now) }
{
    names
        .iter()
        .position(|known| is_same(name, known.as_slice()))
}

/// Whether a name is among others.
pub(crate) fn is_among(names: &[Vec<u8>], name: &[u8]) -> bool
    ensures { result ≡ list_any (bytes_eq name.now) (map (λ v. v.items) names.now) }
{
    has_same(names, name)
}

fn has_same(names: &[Vec<u8>], name: &[u8]) -> bool
    ensures { result ≡ list_any (λ known. bytes_eq name.now known.items) names.now }
{
    names.iter().any(|known| is_same(name, known.as_slice()))
}

/// Whether one of the references is to this taxonomy.
pub(crate) fn is_taxonomy_among(taxonomy: &[u8], references: &[Reference<'_>]) -> bool
    ensures { result ≡ list_any (λ b. bytes_eq taxonomy.now b.0) (references_meant references.now) }
{
    has_taxonomy(taxonomy, references)
}

fn has_taxonomy(taxonomy: &[u8], references: &[Reference<'_>]) -> bool
    ensures { result ≡ list_any (λ b. bytes_eq taxonomy.now b.taxonomy.now) references.now }
{
    references.iter().any(|b| is_same(taxonomy, b.taxonomy))
}

/// Whether no number stands twice.
pub(crate) fn are_different(alloc: Global, numbers: &[u32]) -> Result<bool, AllocError>
    ensures { IfOk result (λ b. b ≡ all_different numbers.now) }
{
    let mut seen = IndexSet::new(alloc);
    for number in numbers {
        if !seen.insert(*number)? {
            return Ok(false);
        }
    }
    Ok(true)
}
