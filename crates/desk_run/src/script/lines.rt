//! The requests of a script, line by line.
ghost use Rattle.std.specs.Prelude.{◌≡◌, ◌≤◌, length, All, IfOk, IfSome};
ghost use Rattle.text_words.specs.Tokens.{lines_of, words_in};
ghost use Rattle.proof_text.specs.Numbers.{number_in};
ghost use Rattle.desk_run.specs.Script.Requests.{IsRequest};
ghost use Rattle.desk_run.specs.Script.Script.{request_of, script_lines, Gives};

use crate::script::acts::act_of;
use crate::script::forms::form_of;
use crate::script::requests::DeskRequest;
use crate::script::{MAX_SCRIPT_LEN, ScriptFault, ScriptKind};
use constraint_set::Problem;
use proof_text::read_number;
use std::alloc::{AllocError, Global};
use text_words::{first_line, next_word};

// The slot that a word says.
fn slot_of(word: &[u8]) -> Option<u32>
    ensures slot { result ≡ number_in 1 16 word.now }
    ensures within { IfSome result (λ slot. (1 ≤ slot) × (slot ≤ 16)) }
{
    let slot = read_number(word, 1, 16)?;
    Some(slot as u32)
}

// The request of a line whose first word is the slot, or its first fault.
fn request_of(
    alloc: Global,
    problem: &Problem,
    slot: &[u8],
    line: &[u8],
) -> Result<Result<DeskRequest, ScriptKind>, AllocError>
    ensures request { IfOk result (λ request. request ≡ request_of problem.now slot.now (words_in line.now)) }
    ensures fit { IfOk result (λ request. IfOk request (IsRequest problem.now)) }
{
    let Some(form) = form_of(line) else {
        return Ok(Err(ScriptKind::BadLine));
    };
    let Some(slot) = slot_of(slot) else {
        return Ok(Err(ScriptKind::BadSlot));
    };
    match act_of(alloc, problem, form)? {
        Ok(act) => Ok(Ok(DeskRequest { slot, act })),
        Err(kind) => Ok(Err(kind)),
    }
}

/// The requests of a script that isn't too long.
#[tactic(auto, using(crate::proofs::script::LineLemmas::line_rules))]
pub(crate) fn read_lines(
    alloc: Global,
    problem: &Problem,
    script: &[u8],
) -> Result<Vec<DeskRequest>, ScriptFault>
    requires { length script.now ≤ MAX_SCRIPT_LEN }
    ensures exact { Gives result (script_lines problem.now 1 (lines_of script.now)) }
    ensures fit { IfOk result (λ requests. All (IsRequest problem.now) requests.items) }
{
    let mut requests = Vec::new(alloc);
    let mut number = 0;
    let mut rest = Some(script);
    while let Some(here) = rest {
        let (line, after) = first_line(here);
        number += 1;
        if let Some((slot, words)) = next_word(line) {
            match request_of(alloc, problem, slot, words)? {
                Ok(request) => requests.push(request)?,
                Err(kind) => return Err(ScriptFault::Refused { line: number, kind }),
            }
        }
        rest = after;
    }
    Ok(requests)
}
