//! The text of a problem, read once more, and its line that has the fault.

use outer_store::FileStore;
use run_ends::{TEXT_LIMIT, read_front};
use std::{fs, io};

// Whether a name can be read once more: a pipe may wait for ever, and what has come out of it is gone.
fn is_file(rt: &HostRuntime, name: &str) -> bool {
    match fs::metadata(rt, name) {
        Ok(found) => found.is_file(),
        Err(_) => false,
    }
}

/// Whether a name is one of something that may be read, and no folder.
pub(crate) fn is_there(rt: &HostRuntime, name: &str) -> bool {
    match fs::metadata(rt, name) {
        Ok(found) => !found.is_dir(),
        Err(_) => false,
    }
}

/// What a file holds, read once more where that can be done; else nothing.
pub fn read_again(rt: &HostRuntime, name: &str) -> Vec<u8> {
    let alloc = rt.alloc();
    if !is_file(rt, name) {
        return Vec::new(alloc);
    }
    let mut store = FileStore::new(alloc, rt);
    match read_front(alloc, &mut store, name, TEXT_LIMIT) {
        Ok(bytes) => bytes,
        Err(_) => Vec::new(alloc),
    }
}

/// The line with this number, from 1; empty where there is none.
pub fn line_of(text: &str, number: u32) -> &str {
    let mut count: u32 = 0;
    for line in text.lines() {
        count = count.saturating_add(1);
        if count == number {
            return line.trim();
        }
    }
    ""
}

/// Whether a text may be shown: there is something in it, it isn't long, and no terminal would take a part of it for a command.
pub(crate) fn is_plain(text: &str) -> bool {
    for c in text.chars() {
        if c != '\t' && c.is_control() {
            return false;
        }
    }
    !text.is_empty() && text.len() <= 200
}

/// Shows a line, if it may be shown.
pub fn show_line(rt: &impl Eprint, line: &str) -> io::Result<()> {
    if is_plain(line) {
        eprintln!(rt; "  {line}")?;
    }
    Ok(())
}
