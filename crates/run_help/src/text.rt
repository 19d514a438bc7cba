//! What people are told of a problem's text that is refused.

use crate::line::{line_of, read_again, show_line};
use crate::unknown::unknown_names;
use crate::words::value_of;
use cleantax_text::TextKind;
use command_line::{Key, fault_place};
use run_ends::text_help;
use std::alloc::Global;
use std::io;

// What to say of a fault of a text besides what holds of every fault of its kind, if there is memory for it.
fn told_of_names(alloc: Global, text: &str, line: u32, kind: TextKind) -> Vec<String> {
    if kind != TextKind::UnknownConcept {
        return Vec::new(alloc);
    }
    match unknown_names(alloc, text, line) {
        Ok(told) => told,
        Err(_) => Vec::new(alloc),
    }
}

/// Tells what is wrong with a line of the problem's text, or with the text as a whole, and shows the line.
pub fn explain_text(
    rt: &HostRuntime,
    words: &[String],
    line: u32,
    kind: TextKind,
) -> io::Result<()> {
    let alloc = rt.alloc();
    let input = value_of(words, Key::In);
    let place = fault_place(alloc, input, line)?;
    let bytes = read_again(rt, input);
    let text = match std::str::from_utf8(&bytes) {
        Ok(text) => text,
        Err(_) => "",
    };
    let told = told_of_names(alloc, text, line, kind);
    for sentence in told.iter() {
        let sentence = sentence.as_str();
        eprintln!(rt; "{place}{sentence}")?;
    }
    if told.is_empty() {
        let sentence = text_help(kind);
        eprintln!(rt; "{place}{sentence}")?;
    }
    show_line(rt, line_of(text, line))
}
