//! What people are told of a part of a listing, and of parts that don't join.

ghost use Rattle.constraint_set.specs.Facts.{IsAsRead};

use crate::help::{certificate_help, rejection_help};
use crate::line::read_again;
use crate::words::{switch_words, value_of};
use cert_rules::PartKind;
use cleantax_text::read_problem;
use command_line::Key;
use constraint_set::{Problem, Switches};
use rcc5_core::Position;
use run_ends::read_token;
use std::alloc::{AllocError, Global};
use std::io;

// Whether a switch is on by the words.
fn is_on(words: &[String], key: Key) -> bool {
    value_of(words, key) != "off"
}

fn switches_of(words: &[String]) -> Switches {
    Switches {
        nonempty: is_on(words, Key::Nonempty),
        sibling: is_on(words, Key::Sibling),
        coverage: is_on(words, Key::Coverage),
    }
}

// Whether a file has a token of the problem that words name.
fn has_token(rt: &HostRuntime, problem: &Problem, name: &str) -> bool
    requires { IsAsRead problem.now }
{
    let bytes = read_again(rt, name);
    read_token(rt.alloc(), problem, &bytes).is_ok()
}

/// The name of the token that was refused. Of two tokens it is the first, unless that one can be read.
pub fn refused_token<'a>(rt: &HostRuntime, words: &'a [String]) -> &'a str {
    let (resume, until) = (value_of(words, Key::Resume), value_of(words, Key::Until));
    if resume.is_empty() {
        return until;
    }
    if until.is_empty() {
        return resume;
    }
    let text = read_again(rt, value_of(words, Key::In));
    let Ok(problem) = read_problem(rt.alloc(), &text, switches_of(words)) else {
        return resume;
    };
    if has_token(rt, &problem, resume) {
        until
    } else {
        resume
    }
}

/// Tells that a part has nothing to list.
pub fn explain_empty(rt: &impl Eprint, words: &[String]) -> io::Result<()> {
    let until = value_of(words, Key::Until);
    eprintln!(rt;
        "{until}: the position of this token is not above the one at which the part begins, so there is nothing to list; give the earlier token as resume= and the later one as until="
    )
}

// The name with a number, from 1, among names with commas between them; empty where there are fewer.
fn name_at(names: &str, number: u64) -> &str {
    let mut count: u64 = 0;
    for name in names.split(',') {
        count = count.saturating_add(1);
        if count == number {
            return name;
        }
    }
    ""
}

/// Tells what is wrong with the certificate of a part, by its number from 1.
pub fn explain_part(
    rt: &impl Eprint,
    words: &[String],
    part: u64,
    line: u64,
    kind: PartKind,
) -> io::Result<()> {
    let name = name_at(value_of(words, Key::Certs), part);
    let sentence = match kind {
        PartKind::Text(kind) => certificate_help(kind),
        PartKind::Rejected(kind) => rejection_help(kind),
    };
    eprintln!(rt;
        "{name}:{line}: {sentence}; run the `part` again that writes this file, with the problem and the switches of this run"
    )
}

// The words that list from one position on and below another, as far as they are known.
fn part_words(
    alloc: Global,
    words: &[String],
    from: &Position,
    to: &Option<Position>,
) -> Result<String, AllocError> {
    let input = value_of(words, Key::In);
    let switches = switch_words(alloc, words)?;
    let mut text = format!(in alloc; "euler_align part in={input}{switches}")?;
    if !from.is_empty() {
        text.push_str(" resume=..")?;
    }
    if to.is_some() {
        text.push_str(" until=..")?;
    }
    text.push_str(" cert=..")?;
    Ok(text)
}

/// Tells that no part lists what lies from one position on and below another, or to the end.
pub fn explain_gap(
    rt: &impl Eprint,
    alloc: Global,
    words: &[String],
    from: &Position,
    to: &Option<Position>,
) -> io::Result<()> {
    let part = part_words(alloc, words, from, to)?;
    let part = part.as_str();
    eprintln!(rt;
        "none of these certificates lists what lies from the first of these two positions on and below the second, where . is the front and - the end: run `{part}` with tokens of these positions, and name its certificate too; any token of this problem is one of a position that is written as its last word"
    )
}
