//! A whole text.
ghost use Rattle.std.specs.Prelude.{◌≡◌, ◌≢◌, ◌+◌, ◌≤◌, length, take, count_by, Ok, Err, OnOk, IfOk, IfErr};
ghost use Rattle.std.specs.Str.Lossy.{utf8_valid_len};
ghost use Rattle.cleantax_text.specs.declared.TextKind.TheVariants.{NoMemory};
ghost use Rattle.constraint_set.specs.Build.{problem_of};
ghost use Rattle.constraint_set.specs.Facts.{IsAsRead};
ghost use Rattle.text_words.specs.Tokens.{is_line_end, lines_of, without_mark};
ghost use Rattle.cleantax_text.specs.Reading.{nothing_read, after_line, after_lines, IsProblemText, HasFirstFault};
ghost use Rattle.cleantax_text.specs.Kept.{meant, IsKept};
ghost use Rattle.cleantax_text.specs.Whole.{text_reading, marked_reading};

use crate::reader::Reader;
use crate::{TextFault, TextKind};
use constraint_set::Problem;
use std::alloc::{AllocError, Global};
use std::str;
use text_words::first_line;
use world_model::Switches;

/// A text has no more bytes than these.
pub const MAX_TEXT_LEN: usize = 1_048_576;

// How many bytes from the first on are UTF-8.
#[tactic(auto, using(crate::proofs::TextLemmas::utf8_rules))]
fn valid_len(bytes: &[u8]) -> usize
    ensures { result ≡ utf8_valid_len bytes.now }
{
    match str::from_utf8(bytes) {
        Ok(_) => bytes.len(),
        Err(error) => error.valid_up_to(),
    }
}

fn line_ends(bytes: &[u8]) -> usize
    ensures { result ≡ count_by is_line_end bytes.now }
{
    bytes.iter().filter(|b| **b == b'\n').count()
}

#[tactic(auto, using(text_words::proofs::LineLemmas::cut_rules))]
fn without_mark(bytes: &[u8]) -> &[u8]
    ensures { result.now ≡ without_mark bytes.now }
{
    if bytes.starts_with(b"\xEF\xBB\xBF") {
        &bytes[3..]
    } else {
        bytes
    }
}

// Takes in the line with this number.
fn take_numbered(reader: &mut Reader, number: u32, line: &[u8]) -> Result<(), TextFault>
    requires { IsKept (meant reader.old) }
    ensures ok { OnOk result (after_line (meant reader.old) line.now ≡ Ok (meant reader.new)) }
    ensures fault { IfErr result (λ f. f.kind ≢ NoMemory → after_line (meant reader.old) line.now ≡ Err f.kind) }
    ensures number { IfErr result (λ f. f.line ≡ number) }
    ensures kept { OnOk result (IsKept (meant reader.new)) }
{
    match reader.take_line(line) {
        Ok(()) => Ok(()),
        Err(kind) => Err(TextFault { line: number, kind }),
    }
}

// What the lines of a text give.
#[tactic(auto, using(crate::proofs::TextLemmas::loop_rules))]
fn read_lines(alloc: Global, text: &[u8]) -> Result<Reader, TextFault>
    requires { length text.now ≤ MAX_TEXT_LEN }
    ensures ok { IfOk result (λ r. after_lines 1 nothing_read (lines_of text.now) ≡ Ok (meant r)) }
    ensures fault { IfErr result (λ f. f.kind ≢ NoMemory → after_lines 1 nothing_read (lines_of text.now) ≡ Err (f.line, f.kind)) }
    ensures kept { IfOk result (λ r. IsKept (meant r)) }
{
    let mut reader = Reader::new(alloc);
    let mut number = 0;
    let mut rest = Some(text);
    while let Some(here) = rest {
        let (line, after) = first_line(here);
        number += 1;
        take_numbered(&mut reader, number, line)?;
        rest = after;
    }
    Ok(reader)
}

// What a text gives that isn't too long.
fn read_marked(alloc: Global, bytes: &[u8]) -> Result<Reader, TextFault>
    requires { length bytes.now ≤ MAX_TEXT_LEN }
    ensures ok { IfOk result (λ r. marked_reading bytes.now ≡ Ok (meant r)) }
    ensures fault { IfErr result (λ f. f.kind ≢ NoMemory → marked_reading bytes.now ≡ Err (f.line, f.kind)) }
    ensures kept { IfOk result (λ r. IsKept (meant r)) }
{
    let valid = valid_len(bytes);
    if valid < bytes.len() {
        return Err(TextFault {
            line: line_ends(&bytes[..valid]) as u32 + 1,
            kind: TextKind::NotUtf8,
        });
    }
    read_lines(alloc, without_mark(bytes))
}

/// What a text gives: the taxonomies and articulations of a problem, or its first fault.
pub(crate) fn read_text(alloc: Global, bytes: &[u8]) -> Result<Reader, TextFault>
    ensures ok { IfOk result (λ r. text_reading bytes.now ≡ Ok (meant r)) }
    ensures fault { IfErr result (λ f. f.kind ≢ NoMemory → text_reading bytes.now ≡ Err (f.line, f.kind)) }
    ensures kept { IfOk result (λ r. IsKept (meant r)) }
    ensures two { IfOk result (λ r. 2 ≤ length (meant r).ids) }
{
    if bytes.len() > MAX_TEXT_LEN {
        return Err(TextFault {
            line: 0,
            kind: TextKind::TooLong,
        });
    }
    let reader = read_marked(alloc, bytes)?;
    if reader.ids.len() < 2 {
        return Err(TextFault {
            line: 0,
            kind: TextKind::TaxonomyCount,
        });
    }
    Ok(reader)
}

// The problem of what was read.
#[tactic(auto, using(crate::proofs::KeptLemmas::fit_kept, crate::proofs::KeptLemmas::as_read_built))]
fn build(alloc: Global, reader: Reader, switches: Switches) -> Result<Problem, AllocError>
    requires kept { IsKept (meant reader) }
    requires two { 2 ≤ length (meant reader).ids }
    ensures value { IfOk result (λ p. p ≡ problem_of (meant reader).ids (meant reader).forests (meant reader).articulations switches) }
    ensures as_read { IfOk result (λ p. IsAsRead p) }
{
    Problem::new(
        alloc,
        reader.ids,
        reader.forests,
        reader.articulations,
        switches,
    )
}

pub(crate) fn read_problem(
    alloc: Global,
    bytes: &[u8],
    switches: Switches,
) -> Result<Problem, TextFault>
    ensures problem { IfOk result (λ p. IsProblemText bytes.now switches p) }
    ensures as_read { IfOk result (λ p. IsAsRead p) }
    ensures fault { IfErr result (λ f. f.kind ≢ NoMemory → HasFirstFault bytes.now switches f.line f.kind) }
{
    let reader = read_text(alloc, bytes)?;
    Ok(build(alloc, reader, switches)?)
}
