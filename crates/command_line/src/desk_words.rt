//! What the words behind the name of the desk's program ask for, or the first fault of them.
ghost use Rattle.std.specs.Prelude.{◌≡◌, ◌≢◌, [], Ok, Err, IfOk, map, string_bytes};
ghost use Rattle.command_line.specs.Words.{desk_request_from, desk_request_of, IfUsage};

use crate::kinds::KnownNames;
use crate::make::desk_args;
use crate::words::{has_same_name, read_operands};
use crate::{DeskArgs, Operand, UsageKind, WordsFault, desk_row};
use std::alloc::Global;

// The desk is asked for no reports, so it knows no names of any.
struct NoNames;

impl KnownNames for NoNames {
    ghost use Rattle.std.specs.Prelude.{[]};

    ghost names = { λ _. [] };

    fn has(&self, _word: &str) -> bool {
        false
    }
}

// What operands ask of the desk, or what is wrong with them together.
fn desk_request_from(alloc: Global, operands: &[Operand]) -> Result<DeskArgs, WordsFault>
    ensures request { IfOk result (λ args. desk_request_from operands.now ≡ Ok args) }
    ensures usage { IfUsage result (λ kind. desk_request_from operands.now ≡ Err kind) }
{
    if desk_row().is_lacking(operands) {
        return Err(WordsFault::Usage(UsageKind::MissingKey));
    }
    if has_same_name(alloc, operands)? {
        return Err(WordsFault::Usage(UsageKind::SameName));
    }
    Ok(desk_args(alloc, operands)?)
}

// What words ask of the desk, or the first fault.
fn desk_request_of(alloc: Global, words: &[String]) -> Result<DeskArgs, WordsFault>
    ensures request { IfOk result (λ args. desk_request_of (map string_bytes words.now) ≡ Ok args) }
    ensures usage { IfUsage result (λ kind. desk_request_of (map string_bytes words.now) ≡ Err kind) }
{
    let operands = read_operands(alloc, &NoNames, &desk_row(), words)?;
    desk_request_from(alloc, &operands)
}

/// What the words behind the program's name ask of the desk, or the first of their faults.
pub fn read_desk_words(alloc: Global, words: &[String]) -> Result<DeskArgs, WordsFault>
    ensures request { IfOk result (λ args. desk_request_of (map string_bytes words.now) ≡ Ok args) }
    ensures apart { IfOk result (λ args. args.input ≢ args.script) }
    ensures usage { IfUsage result (λ kind. desk_request_of (map string_bytes words.now) ≡ Err kind) }
{
    desk_request_of(alloc, words)
}
