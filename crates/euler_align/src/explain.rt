//! What people are told, on standard error, of an ending that is not good, and what to do about it.

use crate::usage::{explain_fault, explain_program};
use align_top::{Key, Status, UsageKind};
use outer_store::FileStore;
use run_help::{
    asks_for_help, certificate_help, command_of, explain_empty, explain_gap, explain_many,
    explain_open, explain_pair, explain_part, explain_read, explain_text, explain_write,
    refused_token, rejection_help, switch_words, token_help, value_of,
};
use std::alloc::Global;
use std::io;
use world_watch::{
    CountWatcher, JsonWatcher, MergeWatcher, SeenWatcher, TallyWatcher, WorldWatcher,
};

// Tells what there is to tell of words that are no request. It makes watchers of its own, for their names: no function may make such
// values and hand them out.
fn explain_usage(
    rt: &impl Eprint,
    alloc: Global,
    words: &[String],
    kind: UsageKind,
) -> io::Result<()> {
    if asks_for_help(words) {
        return explain_program(rt, alloc);
    }
    let mut watchers: Vec<Box<dyn WorldWatcher>> = Vec::new(alloc);
    watchers.push(Box::new(alloc, CountWatcher::new(alloc))?)?;
    watchers.push(Box::new(alloc, TallyWatcher::new(alloc))?)?;
    watchers.push(Box::new(alloc, SeenWatcher::new(alloc))?)?;
    watchers.push(Box::new(alloc, MergeWatcher::new(alloc))?)?;
    watchers.push(Box::new(alloc, JsonWatcher::new(alloc))?)?;
    explain_fault(rt, alloc, words, &watchers, kind)
}

// Tells which of the files that the command reads can't be read.
fn explain_unread(rt: &HostRuntime, words: &[String]) -> io::Result<()> {
    match command_of(words) {
        Some(command) => explain_read(rt, words, command.reads()),
        None => Ok(()),
    }
}

// Tells what is wrong with a line of a certificate.
fn explain_certificate(
    rt: &impl Eprint,
    words: &[String],
    line: u64,
    sentence: &str,
    advice: &str,
) -> io::Result<()> {
    let name = value_of(words, Key::Cert);
    eprintln!(rt; "{name}:{line}: {sentence}{advice}")
}

// Tells that no world is possible, and which words ask why.
fn explain_no_world(rt: &impl Eprint, alloc: Global, words: &[String]) -> io::Result<()> {
    let input = value_of(words, Key::In);
    let switches = switch_words(alloc, words)?;
    eprintln!(rt;
        "no merged classification meets all statements; `euler_align conflict in={input}{switches}` names some that can't stand together, each of them needed for the conflict"
    )
}

/// Tells people what an ending means, if it isn't good, and what to do about it.
pub(crate) fn explain(
    rt: &HostRuntime,
    words: &[String],
    store: &FileStore<'_, HostRuntime>,
    status: &Status,
) -> io::Result<()> {
    match status {
        Status::Usage(kind) => explain_usage(rt, rt.alloc(), words, *kind),
        Status::RefusedText { line, kind } => explain_text(rt, words, *line, *kind),
        Status::ReadFault => explain_unread(rt, words),
        Status::WriteFault => explain_write(rt, words, store),
        Status::RefusedToken(kind) => {
            let name = refused_token(rt, words);
            let sentence = token_help(*kind);
            eprintln!(rt; "{name}: {sentence}")
        }
        Status::RefusedCert { line, kind } => {
            explain_certificate(rt, words, *line, certificate_help(*kind), "")
        }
        Status::Rejected { line, kind } => {
            let advice = "; check it with the problem and the switches that it was made with";
            explain_certificate(rt, words, *line, rejection_help(*kind), advice)
        }
        Status::NoWorld => explain_no_world(rt, rt.alloc(), words),
        Status::RefusedPair(kind) => explain_pair(rt, words, *kind),
        Status::TooMany => explain_many(rt, rt.alloc(), words),
        Status::NotEntailed => explain_open(rt, rt.alloc(), words),
        Status::EmptyPart => explain_empty(rt, words),
        Status::PartRefused { part, line, kind } => explain_part(rt, words, *part, *line, *kind),
        Status::Gap { from, to } => explain_gap(rt, rt.alloc(), words, from, to),
        Status::NoMemory => eprintln!(rt;
            "out of memory; free some, or ask for less: `mir` in place of a listing, or `worlds=` for a part of it"
        ),
        _ => Ok(()),
    }
}
