//! A line, printed as text.

ghost use Rattle.std.specs.Prelude.{◌≡◌, ◌++◌, ◌∷◌, [], ◌<◌, ◌^◌, decimal, IfOk, OnOk, Ok, All};
ghost use Rattle.proof_text.specs.Words.{parted};
ghost use Rattle.lits_core.specs.Derivation.{FromOne};
ghost use Rattle.proof_text.specs.Lines.{literal_text, list_words, line_words, line_text, line_of};
ghost use Rattle.lits_core.specs.declared.Line.TheVariants.{Derive, Forget};

use crate::numbers::print_number;
use lits_core::{Line, Lit};
use std::alloc::{AllocError, Global};

/// A line's text, with no LF at its end.
pub fn print_line(alloc: Global, line: &Line) -> Result<Vec<u8>, AllocError>
    requires { FromOne line.now }
    ensures text { IfOk result (λ text. text.items ≡ line_text line.now) }
    ensures read { IfOk result (λ text. line_of text.items ≡ Ok line.now) }
{
    let mut out = Vec::new(alloc);
    put_line(&mut out, line)?;
    Ok(out)
}

/// Puts a line's text at the end, with no LF behind it.
pub fn put_line(out: &mut Vec<u8>, line: &Line) -> Result<(), AllocError>
    requires { FromOne line.now }
    ensures text { OnOk result (out.new.items ≡ out.old.items ++ line_text line.now) }
    ensures read { OnOk result (line_of (line_text line.now) ≡ Ok line.now) }
{
    match line {
        Line::Derive { id, lits, hints } => put_derive(out, *id, lits.lits(), hints.list()),
        Line::Forget { ids } => put_forget(out, ids.list()),
    }
}

fn put_derive(out: &mut Vec<u8>, id: u64, lits: &[Lit], hints: &[u64]) -> Result<(), AllocError>
    ensures text { OnOk result (out.new.items ≡ out.old.items ++ line_text (Derive id lits.now hints.now)) }
    ensures ids { (id < 2 ^ 64) × All (λ hint. hint < 2 ^ 64) hints.now }
    ensures literals { OnOk result (All (λ lit. lit < 2 ^ 32) lits.now) }
{
    out.push(b'd')?;
    put_id(out, id)?;
    put_literals(out, lits)?;
    put_ids(out, hints)
}

fn put_forget(out: &mut Vec<u8>, ids: &[u64]) -> Result<(), AllocError>
    ensures text { OnOk result (out.new.items ≡ out.old.items ++ line_text (Forget ids.now)) }
    ensures ids { All (λ id. id < 2 ^ 64) ids.now }
{
    out.push(b'k')?;
    put_ids(out, ids)
}

/// Puts a space and the id.
fn put_id(out: &mut Vec<u8>, id: u64) -> Result<(), AllocError>
    ensures { OnOk result (out.new.items ≡ out.old.items ++ 32 ∷ decimal id) }
{
    out.push(b' ')?;
    print_number(out, id)
}

/// Puts the ids, and the `0` that ends them, with a space before each.
fn put_ids(out: &mut Vec<u8>, ids: &[u64]) -> Result<(), AllocError>
    ensures { OnOk result (out.new.items ≡ out.old.items ++ parted 32 (list_words decimal ids.now)) }
{
    for id in ids {
        put_id(out, *id)?;
    }
    out.extend_from_slice(b" 0")
}

/// Puts a space and the literal.
#[tactic(auto, unfolding(crate::specs::Lines::literal_text))]
fn put_literal(out: &mut Vec<u8>, lit: Lit) -> Result<(), AllocError>
    ensures text { OnOk result (out.new.items ≡ out.old.items ++ 32 ∷ literal_text lit) }
    ensures small { lit < 2 ^ 32 }
{
    let sign = if lit.is_negative() {
        b" -".as_slice()
    } else {
        b" ".as_slice()
    };
    out.extend_from_slice(sign)?;
    print_number(out, u64::from(lit.variable()) + 1)
}

/// Puts the literals, and the `0` that ends them, with a space before each.
fn put_literals(out: &mut Vec<u8>, lits: &[Lit]) -> Result<(), AllocError>
    ensures text { OnOk result (out.new.items ≡ out.old.items ++ parted 32 (list_words literal_text lits.now)) }
    ensures small { OnOk result (All (λ lit. lit < 2 ^ 32) lits.now) }
{
    for lit in lits {
        put_literal(out, *lit)?;
    }
    out.extend_from_slice(b" 0")
}
