//! The request of a command, by the values of its keys; and what they give the desk.
ghost use Rattle.std.specs.Prelude.{◌≡◌, ◌≤◌, [], IfOk, unwrap_or};
ghost use Rattle.command_line.specs.Words.{value_of, is_on, switches_of, names_in, seed_in, size_in, set_in, count_in, claims_args, explain_args, request_for, desk_args};
ghost use Rattle.command_line.specs.declared.table.Command.TheVariants as commands;

use crate::kinds::{split_names, word_of};
use crate::words::{limit_of, value_of};
use crate::{
    AlignArgs, CheckArgs, ClaimsArgs, Command, DeskArgs, ExplainArgs, JoinArgs, Key, Operand,
    PartArgs, PartsArgs, ReportArgs, Request, TrialArgs, Word, WordList,
};
use proof_text::read_number;
use rcc5_core::RelSet;
use std::alloc::{AllocError, Global};
use text_words::set_of_letters;
use world_model::Switches;

fn is_on(operands: &[Operand], key: Key) -> bool
    ensures { result ≡ is_on (value_of operands.now key) }
{
    match value_of(operands, key) {
        None => true,
        Some(value) => value == "on",
    }
}

// A name of its own for the value of a key, if it is given.
fn name_of(alloc: Global, operands: &[Operand], key: Key) -> Result<Option<Word>, AllocError>
    ensures { IfOk result (λ name. name ≡ value_of operands.now key) }
{
    match value_of(operands, key) {
        None => Ok(None),
        Some(value) => Ok(Some(word_of(alloc, value)?)),
    }
}

// The value of a key that has to be given.
fn required_name(alloc: Global, operands: &[Operand], key: Key) -> Result<Word, AllocError>
    ensures { IfOk result (λ name. name ≡ unwrap_or (value_of operands.now key) []) }
{
    word_of(alloc, value_of(operands, key).unwrap_or(""))
}

fn switches_of(operands: &[Operand]) -> Switches
    ensures { result ≡ switches_of operands.now }
{
    Switches {
        nonempty: is_on(operands, Key::Nonempty),
        sibling: is_on(operands, Key::Sibling),
        coverage: is_on(operands, Key::Coverage),
    }
}

// The names under a key that has to be given.
fn required_names(alloc: Global, operands: &[Operand], key: Key) -> Result<WordList, AllocError>
    ensures { IfOk result (λ names. names ≡ names_in (unwrap_or (value_of operands.now key) [])) }
{
    let value = value_of(operands, key).unwrap_or("");
    Ok(WordList::new(split_names(alloc, value)?))
}

fn seed_in(operands: &[Operand]) -> u64
    ensures { result ≡ seed_in operands.now }
{
    limit_of(operands, Key::Seed).unwrap_or(0)
}

fn size_in(operands: &[Operand]) -> u32
    ensures { result ≡ size_in operands.now }
{
    let Some(value) = value_of(operands, Key::Size) else {
        return 0;
    };
    match read_number(value.as_bytes(), 14, 256) {
        None => 0,
        Some(size) => size as u32,
    }
}

// The number of parts that is given.
fn count_in(operands: &[Operand]) -> u64
    ensures { result ≡ count_in operands.now }
{
    let Some(value) = value_of(operands, Key::Count) else {
        return 0;
    };
    read_number(value.as_bytes(), 1, 1000).unwrap_or(0)
}

// The relations whose letters are given.
fn set_in(operands: &[Operand]) -> RelSet
    ensures { result ≡ set_in operands.now }
{
    let Some(value) = value_of(operands, Key::Set) else {
        return RelSet::none();
    };
    set_of_letters(value.as_bytes()).unwrap_or(RelSet::none())
}

fn align_request(alloc: Global, operands: &[Operand]) -> Result<Request, AllocError>
    ensures { IfOk result (λ request. request ≡ request_for commands.Align operands.now) }
{
    Ok(Request::Align(AlignArgs {
        input: required_name(alloc, operands, Key::In)?,
        cert: name_of(alloc, operands, Key::Cert)?,
        switches: switches_of(operands),
        nodes: limit_of(operands, Key::Nodes),
        worlds: limit_of(operands, Key::Worlds),
        token: name_of(alloc, operands, Key::Token)?,
        resume: name_of(alloc, operands, Key::Resume)?,
    }))
}

fn check_request(alloc: Global, operands: &[Operand]) -> Result<Request, AllocError>
    ensures { IfOk result (λ request. request ≡ request_for commands.Check operands.now) }
{
    Ok(Request::Check(CheckArgs {
        input: required_name(alloc, operands, Key::In)?,
        cert: required_name(alloc, operands, Key::Cert)?,
        switches: switches_of(operands),
    }))
}

// The arguments of a question that is answered by claims.
fn claims_args(alloc: Global, operands: &[Operand]) -> Result<ClaimsArgs, AllocError>
    ensures { IfOk result (λ args. args ≡ claims_args operands.now) }
{
    Ok(ClaimsArgs {
        input: required_name(alloc, operands, Key::In)?,
        cert: name_of(alloc, operands, Key::Cert)?,
        switches: switches_of(operands),
    })
}

// The arguments of a question about the relation of a pair.
fn explain_args(alloc: Global, operands: &[Operand]) -> Result<ExplainArgs, AllocError>
    ensures { IfOk result (λ args. args ≡ explain_args operands.now) }
{
    Ok(ExplainArgs {
        input: required_name(alloc, operands, Key::In)?,
        left: required_name(alloc, operands, Key::Left)?,
        right: required_name(alloc, operands, Key::Right)?,
        set: set_in(operands),
        switches: switches_of(operands),
    })
}

fn report_request(alloc: Global, operands: &[Operand]) -> Result<Request, AllocError>
    ensures { IfOk result (λ request. request ≡ request_for commands.Report operands.now) }
{
    Ok(Request::Report(ReportArgs {
        input: required_name(alloc, operands, Key::In)?,
        kinds: required_names(alloc, operands, Key::Kinds)?,
        switches: switches_of(operands),
    }))
}

fn parts_request(alloc: Global, operands: &[Operand]) -> Result<Request, AllocError>
    ensures { IfOk result (λ request. request ≡ request_for commands.Parts operands.now) }
{
    Ok(Request::Parts(PartsArgs {
        input: required_name(alloc, operands, Key::In)?,
        count: count_in(operands),
        token: required_name(alloc, operands, Key::Token)?,
        switches: switches_of(operands),
    }))
}

fn part_request(alloc: Global, operands: &[Operand]) -> Result<Request, AllocError>
    ensures { IfOk result (λ request. request ≡ request_for commands.Part operands.now) }
{
    Ok(Request::Part(PartArgs {
        input: required_name(alloc, operands, Key::In)?,
        cert: required_name(alloc, operands, Key::Cert)?,
        resume: name_of(alloc, operands, Key::Resume)?,
        until: name_of(alloc, operands, Key::Until)?,
        switches: switches_of(operands),
    }))
}

fn join_request(alloc: Global, operands: &[Operand]) -> Result<Request, AllocError>
    ensures { IfOk result (λ request. request ≡ request_for commands.Join operands.now) }
{
    Ok(Request::Join(JoinArgs {
        input: required_name(alloc, operands, Key::In)?,
        certs: required_names(alloc, operands, Key::Certs)?,
        switches: switches_of(operands),
    }))
}

/// The request of a command, whose required keys are given.
pub(crate) fn make_request(
    alloc: Global,
    command: Command,
    operands: &[Operand],
) -> Result<Request, AllocError>
    ensures { IfOk result (λ request. request ≡ request_for command operands.now) }
{
    match command {
        Command::Align => align_request(alloc, operands),
        Command::Check => check_request(alloc, operands),
        Command::Mir => Ok(Request::Mir(claims_args(alloc, operands)?)),
        Command::Conflict => Ok(Request::Conflict(claims_args(alloc, operands)?)),
        Command::Lattice => Ok(Request::Lattice(claims_args(alloc, operands)?)),
        Command::Explain => Ok(Request::Explain(explain_args(alloc, operands)?)),
        Command::Report => report_request(alloc, operands),
        Command::Parts => parts_request(alloc, operands),
        Command::Part => part_request(alloc, operands),
        Command::Join => join_request(alloc, operands),
        Command::Trial => Ok(Request::Trial(TrialArgs {
            seed: seed_in(operands),
            size: size_in(operands),
        })),
    }
}

/// What operands give the desk, whose required keys are given.
pub(crate) fn desk_args(alloc: Global, operands: &[Operand]) -> Result<DeskArgs, AllocError>
    ensures { IfOk result (λ args. args ≡ desk_args operands.now) }
{
    Ok(DeskArgs {
        input: required_name(alloc, operands, Key::In)?,
        script: required_name(alloc, operands, Key::Script)?,
        switches: switches_of(operands),
    })
}
