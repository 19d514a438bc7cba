//! Sets of relations as letters.
ghost use Rattle.std.specs.Prelude.{◌≡◌};
ghost use Rattle.std.specs.List.{list_all};
ghost use Rattle.rcc5_core.specs.Relation.{is_in};
ghost use Rattle.text_words.specs.Words.{is_letter, set_of_letters};

use rcc5_core::{Rel, RelSet};

fn is_letter(byte: u8) -> bool
    ensures { result ≡ is_letter byte }
{
    Rel::from_letter(byte).is_some()
}

fn has_only_letters(word: &[u8]) -> bool
    ensures { result ≡ list_all is_letter word.now }
{
    word.iter().all(|byte| is_letter(*byte))
}

fn has(word: &[u8], letter: u8) -> bool
    ensures { result ≡ is_in letter word.now }
{
    word.iter().any(|byte| letter == *byte)
}

/// The set of the relations whose letters a word has: one at least, and no other byte. A letter that stands twice counts once.
pub fn set_of_letters(word: &[u8]) -> Option<RelSet>
    ensures { result ≡ set_of_letters word.now }
{
    if word.is_empty() || !has_only_letters(word) {
        return None;
    }
    Some(RelSet {
        equals: has(word, b'='),
        includes: has(word, b'>'),
        included_in: has(word, b'<'),
        overlaps: has(word, b'x'),
        disjoint: has(word, b'!'),
    })
}
