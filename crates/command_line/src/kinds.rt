//! The names of reports, with commas between them.
ghost use Rattle.std.specs.Prelude.{◌≡◌, ◌<◌, [], ◌∷◌, length, IfOk, map, IfSome, IfNone, bytes_eq};
ghost use Rattle.std.specs.List.{list_any, list_all};
ghost use Rattle.command_line.specs.Words.{names_in, is_among, has_twice, names_fault};

use crate::{UsageKind, Word};
use std::alloc::{AllocError, Global};

/// What knows the names by which reports may be asked for.
pub trait KnownNames {
    ghost use Rattle.std.specs.Prelude.{ℕ, List};

    /// The names, in order.
    ghost names: { Self → List (List ℕ) };

    /// Whether the word is one of them.
    fn has(&self, word: &str) -> bool
        ensures { result ≡ is_among (names self.now) word.now };
}

/// A word of its own for some bytes.
pub(crate) fn word_of(alloc: Global, text: &str) -> Result<Word, AllocError>
    ensures { IfOk result (λ word. word ≡ text.now) }
{
    Ok(Word::new(String::from_str(alloc, text)?))
}

// The first name of a value and what stands behind its comma. None where there is no comma.
#[tactic(auto, using(crate::proofs::KindLemmas::name_rules))]
fn cut_name(value: &str) -> Option<(&str, &str)>
    ensures cut { IfSome result (λ parts. names_in value.now ≡ parts.0.now ∷ names_in parts.1.now) }
    ensures shorter { IfSome result (λ parts. length parts.1.now < length value.now) }
    ensures whole { IfNone result (names_in value.now ≡ value.now ∷ []) }
{
    value.split_once(',')
}

/// The names that a value has, from the left. Between two commas in a row stands an empty one.
pub(crate) fn split_names(alloc: Global, value: &str) -> Result<Vec<Word>, AllocError>
    ensures { IfOk result (λ names. names.items ≡ names_in value.now) }
{
    let mut names = Vec::new(alloc);
    let mut rest = value;
    'names: while let Some((name, further)) = cut_name(rest) {
        names.push(word_of(alloc, name)?)?;
        rest = further;
    }
    names.push(word_of(alloc, rest)?)?;
    Ok(names)
}

// Whether each name is known.
fn are_known<K: KnownNames>(known: &K, names: &[Word]) -> bool
    ensures { result ≡ list_all (is_among (K.names known.now)) names.now }
{
    let Some((first, further)) = names.split_first() else {
        return true;
    };
    known.has(first.text()) && are_known(known, further)
}

/// Whether a name is one of some names.
pub(crate) fn is_among(names: &[Word], word: &str) -> bool
    ensures { result ≡ is_among names.now word.now }
{
    names.iter().any(|name| word == name.text())
}

// Whether a name stands twice.
fn has_twice(names: &[Word]) -> bool
    ensures { result ≡ has_twice names.now }
{
    let Some((name, further)) = names.split_first() else {
        return false;
    };
    is_among(further, name.text()) || has_twice(further)
}

/// What is wrong with names: one is not known, or one stands twice.
pub(crate) fn names_fault<K: KnownNames>(known: &K, names: &[Word]) -> Option<UsageKind>
    ensures { result ≡ names_fault (K.names known.now) names.now }
{
    if !are_known(known, names) {
        return Some(UsageKind::UnknownKind);
    }
    if has_twice(names) {
        return Some(UsageKind::KindTwice);
    }
    None
}
