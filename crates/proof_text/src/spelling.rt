//! Switches and positions as words.

ghost use Rattle.std.specs.Prelude.{◌≡◌, ◌++◌, map, OnOk};
ghost use Rattle.rcc5_core.specs.Relation.{letter_of};
ghost use Rattle.proof_text.specs.Words.{switch_word, position_word};

use rcc5_core::{Position, Rel};
use std::alloc::AllocError;

/// A switch as a word.
pub fn switch_word(on: bool) -> &'static [u8]
    ensures { result.now ≡ switch_word on }
{
    if on { b"on" } else { b"off" }
}

/// Puts a position as a word at the end of a text: its letters, and a full stop for the empty one.
pub fn print_position(out: &mut Vec<u8>, position: &Position) -> Result<(), AllocError>
    ensures { OnOk result (out.new.items ≡ out.old.items ++ position_word position.now) }
{
    if position.is_empty() {
        return out.extend_from_slice(b".");
    }
    put_letters(out, position.rels())
}

/// Puts the letters of relations at the end of a text.
pub fn put_letters(out: &mut Vec<u8>, rels: &[Rel]) -> Result<(), AllocError>
    ensures { OnOk result (out.new.items ≡ out.old.items ++ map letter_of rels.now) }
{
    for rel in rels {
        out.push(rel.letter())?;
    }
    Ok(())
}
