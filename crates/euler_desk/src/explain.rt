//! What people are told, on standard error, of an ending that is not good, and what to do about it.

use crate::usage::explain_usage;
use command_line::{Key, desk_row, fault_place};
use desk_run::{DeskStatus, ScriptKind};
use run_help::{
    explain_read, explain_text, line_of, read_again, show_line, unknown_name, value_of,
};
use std::alloc::AllocError;
use std::io;

// What a fault of a script means, and what to do about it.
fn script_help(kind: ScriptKind) -> &'static str {
    match kind {
        ScriptKind::TooLong => {
            "the script has more than 1,048,576 bytes; cut it, and let each part open its slots anew"
        }
        ScriptKind::BadLine => {
            "this line has none of the forms; write `SLOT open`, `SLOT keep BITS`, `SLOT narrow TAXONOMY.CONCEPT TAXONOMY.CONCEPT LETTERS`, `SLOT next` or `SLOT close`; there are no comments"
        }
        ScriptKind::BadSlot => {
            "the first word is no slot; write a number from 1 to 16, without a leading zero"
        }
        ScriptKind::BadBits => {
            "write a 0 or 1 for each statement of the problem, in their order and with no space between, or `.` where there is none"
        }
        ScriptKind::UnknownConcept => {
            "a concept here is not one of the problem; write TAXONOMY.CONCEPT as the problem spells it"
        }
        ScriptKind::SameConcept => "both words name one concept; name two",
        ScriptKind::BadLetters => {
            "the last word is no set of relations; write one or more of = > < x !, with no space between"
        }
    }
}

// Whether a line of a text ends with a carriage return, by its number.
fn has_return(text: &str, number: u32) -> bool {
    let place = number.saturating_sub(1) as usize;
    match text.split('\n').nth(place) {
        Some(line) => line.ends_with('\r'),
        None => false,
    }
}

// What to say of the first word of a line that was to name a concept and does not, if there is memory for it and the problem can be read
// once more.
fn told_of_names(
    rt: &HostRuntime,
    words: &[String],
    line: &str,
) -> Result<Option<String>, AllocError> {
    let text = read_again(rt, value_of(words, Key::In));
    if text.is_empty() {
        return Ok(None);
    }
    for word in line.split_ascii_whitespace().skip(2).take(2) {
        if let Some(said) = unknown_name(rt.alloc(), &text, word)? {
            return Ok(Some(said));
        }
    }
    Ok(None)
}

// Tells what is wrong with a line of the script, or with it as a whole, and shows the line.
fn explain_script(
    rt: &HostRuntime,
    words: &[String],
    number: u32,
    kind: ScriptKind,
) -> io::Result<()> {
    let script = value_of(words, Key::Script);
    let place = fault_place(rt.alloc(), script, number)?;
    let bytes = read_again(rt, script);
    let text = match std::str::from_utf8(&bytes) {
        Ok(text) => text,
        Err(_) => "",
    };
    let line = line_of(text, number);
    let told = match kind {
        ScriptKind::UnknownConcept => told_of_names(rt, words, line)?,
        _ => None,
    };
    match told {
        Some(told) => {
            let told = told.as_str();
            eprintln!(rt; "{place}{told}")?;
        }
        None if has_return(text, number) => {
            eprintln!(rt;
                "{place}this line ends with a carriage return, which no form has; save the script with plain line feeds"
            )?;
        }
        None => {
            let sentence = script_help(kind);
            eprintln!(rt; "{place}{sentence}")?;
        }
    }
    show_line(rt, line)
}

/// Tells people what an ending means, if it isn't good, and what to do about it.
pub(crate) fn explain(rt: &HostRuntime, words: &[String], status: &DeskStatus) -> io::Result<()> {
    match status {
        DeskStatus::Done => Ok(()),
        DeskStatus::Usage(kind) => explain_usage(rt, rt.alloc(), words, *kind),
        DeskStatus::RefusedText { line, kind } => explain_text(rt, words, *line, *kind),
        DeskStatus::RefusedScript { line, kind } => explain_script(rt, words, *line, *kind),
        DeskStatus::ReadFault => explain_read(rt, words, desk_row().reads),
        DeskStatus::WriteFault => eprintln!(rt;
            "standard output can't be written: whoever read it may have stopped early, as `head` does; or check that there is room. What was written is not whole"
        ),
        DeskStatus::NoMemory => eprintln!(rt;
            "out of memory; free some, or close slots that are no longer asked"
        ),
    }
}
