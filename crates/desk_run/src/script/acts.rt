//! What a form asks for in a problem.
ghost use Rattle.std.specs.Prelude.{◌≡◌, ◌≢◌, ◌<◌, length, map, IfOk, IfSome, option_map};
ghost use Rattle.std.specs.List.{list_all};
ghost use Rattle.world_model.specs.Problem.{concept_count, pair_count};
ghost use Rattle.desk_run.specs.Script.Requests.{IsAct};
ghost use Rattle.desk_run.specs.Script.Acts.{is_bit, is_one, flags_in, pair_number, turned, narrow_act, act_of};
ghost use Rattle.desk_run.specs.Script.Forms.{KeepForm};
ghost use Rattle.desk_run.specs.Script.Views.{form_meant};

use crate::script::ScriptKind;
use crate::script::forms::Form;
use crate::script::requests::{Act, Flags};
use cleantax_text::concept_named;
use constraint_set::Problem;
use rcc5_core::RelSet;
use std::alloc::{AllocError, Global};
use text_words::{is_same, set_of_letters};

fn is_bit(byte: u8) -> bool
    ensures { result ≡ is_bit byte }
{
    byte == b'0' || byte == b'1'
}

fn has_only_bits(word: &[u8]) -> bool
    ensures { result ≡ list_all is_bit word.now }
{
    word.iter().all(|byte| is_bit(*byte))
}

// Which bytes are 1.
fn ones_of(alloc: Global, word: &[u8]) -> Result<Vec<bool>, AllocError>
    ensures { IfOk result (λ ones. ones.items ≡ map is_one word.now) }
{
    word.iter().map(|byte| *byte == b'1').collect(alloc)
}

// The flags of a word: a byte for each of so many, and a full stop where there is none to be given.
fn flags_in(alloc: Global, count: u32, word: &[u8]) -> Result<Option<Flags>, AllocError>
    ensures flags { IfOk result (λ flags. flags ≡ flags_in count word.now) }
    ensures each { IfOk result (λ flags. IfSome flags (λ f. length f ≡ count)) }
{
    if count == 0 {
        return Ok(no_flags(alloc, word));
    }
    if word.len() != count as usize || !has_only_bits(word) {
        return Ok(None);
    }
    let ones = ones_of(alloc, word)?;
    Ok(Some(Flags::new(ones)))
}

// No flag at all, where the word says so.
fn no_flags(alloc: Global, word: &[u8]) -> Option<Flags>
    ensures flags { result ≡ flags_in 0 word.now }
    ensures each { IfSome result (λ flags. length flags ≡ 0) }
{
    if is_same(word, b".") {
        Some(Flags::new(Vec::new(alloc)))
    } else {
        None
    }
}

fn keep_act(
    alloc: Global,
    problem: &Problem,
    bits: &[u8],
) -> Result<Result<Act, ScriptKind>, AllocError>
    ensures act { IfOk result (λ act. act ≡ act_of problem.now (KeepForm bits.now)) }
    ensures fit { IfOk result (λ act. IfOk act (IsAct problem.now)) }
{
    match flags_in(alloc, problem.articulation_count(), bits)? {
        Some(flags) => Ok(Ok(Act::Keep(flags))),
        None => Ok(Err(ScriptKind::BadBits)),
    }
}

// The narrowing of two concepts, turned round where the left one has the greater number.
fn turned(problem: &Problem, left: u32, right: u32, set: RelSet) -> Act
    requires left { left < concept_count problem.now }
    requires right { right < concept_count problem.now }
    requires differ { left ≢ right }
    ensures act { result ≡ turned problem.now left right set }
    ensures fit { IsAct problem.now result }
{
    if left < right {
        Act::Narrow {
            pair: pair_number(problem, left, right),
            set,
        }
    } else {
        Act::Narrow {
            pair: pair_number(problem, right, left),
            set: set.converse(),
        }
    }
}

// The number of the pair of two concepts: its place among all pairs.
#[tactic(auto, using(crate::proofs::script::PairLemmas::pair_rules))]
fn pair_number(problem: &Problem, left: u32, right: u32) -> u32
    requires order { left < right }
    requires within { right < concept_count problem.now }
    ensures number { result ≡ pair_number problem.now left right }
    ensures within { result < pair_count problem.now }
{
    problem.pair_index(left, right)
}

fn narrow_act(
    problem: &Problem,
    left: &[u8],
    right: &[u8],
    letters: &[u8],
) -> Result<Act, ScriptKind>
    ensures act { result ≡ narrow_act problem.now left.now right.now letters.now }
    ensures fit { IfOk result (IsAct problem.now) }
{
    let Some(left) = concept_named(problem, left) else {
        return Err(ScriptKind::UnknownConcept);
    };
    let Some(right) = concept_named(problem, right) else {
        return Err(ScriptKind::UnknownConcept);
    };
    if left == right {
        return Err(ScriptKind::SameConcept);
    }
    let Some(set) = set_of_letters(letters) else {
        return Err(ScriptKind::BadLetters);
    };
    Ok(turned(problem, left, right, set))
}

/// What a form asks for, or its first fault.
pub(crate) fn act_of(
    alloc: Global,
    problem: &Problem,
    form: Form<'_>,
) -> Result<Result<Act, ScriptKind>, AllocError>
    ensures act { IfOk result (λ act. act ≡ act_of problem.now (form_meant form.entry)) }
    ensures fit { IfOk result (λ act. IfOk act (IsAct problem.now)) }
{
    match form {
        Form::Open => Ok(Ok(Act::Open)),
        Form::Keep(bits) => keep_act(alloc, problem, bits),
        Form::Narrow {
            left,
            right,
            letters,
        } => Ok(narrow_act(problem, left, right, letters)),
        Form::Next => Ok(Ok(Act::Next)),
        Form::Close => Ok(Ok(Act::Close)),
    }
}
