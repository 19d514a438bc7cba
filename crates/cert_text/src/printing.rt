//! A line of a certificate, printed as text.

ghost use Rattle.std.specs.Prelude.{◌≡◌, ◌++◌, ◌∷◌, [], Some, IfOk, OnOk};
ghost use Rattle.lits_core.specs.Derivation.{FromOne};
ghost use Rattle.cert_text.specs.Lines.{cert_text, IdsFromOne, IsCertLine};
ghost use Rattle.cert_text.specs.Logs.{lines_in};
ghost use Rattle.cert_text.specs.declared.line.CertLine.TheVariants.{Certificate, Claims, Proof, Branch, NoPoint, NoRelation, World, Holds, Fails, End};

use crate::line::{CertLine, RawFamily, Subject};
use crate::pieces::{put_family, put_node, put_number, put_position, put_subject, put_version};
use lits_core::Line;
use proof_text::put_line;
use rcc5_core::{Position, Rel};
use std::alloc::{AllocError, Global};
use world_model::Switches;

/// A line's text, with the LF that ends it.
pub fn print_cert(alloc: Global, line: &CertLine) -> Result<Vec<u8>, AllocError>
    requires { IdsFromOne line.now }
    ensures text { IfOk result (λ text. text.items ≡ cert_text line.now ++ 10 ∷ []) }
    ensures read { IfOk result (λ text. lines_in text.items ≡ Some (line.now ∷ [])) }
{
    let mut out = Vec::new(alloc);
    put_whole(&mut out, line)?;
    Ok(out)
}

/// Puts a line's text at the end, with the LF that ends it.
pub(crate) fn put_whole(out: &mut Vec<u8>, line: &CertLine) -> Result<(), AllocError>
    requires { IdsFromOne line.now }
    ensures text { OnOk result (out.new.items ≡ out.old.items ++ (cert_text line.now ++ 10 ∷ [])) }
    ensures small { OnOk result (IsCertLine line.now) }
{
    put_text(out, line)?;
    out.push(b'\n')?;
    Ok(())
}

/// Puts a line's text at the end.
fn put_text(out: &mut Vec<u8>, line: &CertLine) -> Result<(), AllocError>
    requires { IdsFromOne line.now }
    ensures text { OnOk result (out.new.items ≡ out.old.items ++ cert_text line.now) }
    ensures small { OnOk result (IsCertLine line.now) }
{
    match line {
        CertLine::Certificate { switches, from } => put_certificate(out, *switches, from),
        CertLine::Claims { switches } => put_claims(out, *switches),
        CertLine::Proof(line) => put_proof(out, line),
        CertLine::Branch { depth, last } => put_branch(out, (*depth, *last)),
        CertLine::NoPoint {
            depth,
            last,
            need,
            clause,
        } => put_no_point(out, (*depth, *last), *need, *clause),
        CertLine::NoRelation { depth, last, pair } => put_no_relation(out, (*depth, *last), *pair),
        CertLine::World {
            depth,
            last,
            family,
        } => put_world(out, (*depth, *last), family),
        CertLine::Holds { subject, family } => put_holds(out, subject, family),
        CertLine::Fails { subject } => put_fails(out, subject),
        CertLine::End(to) => put_end(out, to),
        CertLine::Quit => out.extend_from_slice(b"quit"),
        CertLine::Done => out.extend_from_slice(b"done"),
    }
}

fn put_certificate(out: &mut Vec<u8>, switches: Switches, from: &Position) -> Result<(), AllocError>
    ensures { OnOk result (out.new.items ≡ out.old.items ++ cert_text (Certificate switches from.now)) }
{
    out.extend_from_slice(b"certificate")?;
    put_version(out, switches)?;
    put_position(out, from)
}

fn put_claims(out: &mut Vec<u8>, switches: Switches) -> Result<(), AllocError>
    ensures { OnOk result (out.new.items ≡ out.old.items ++ cert_text (Claims switches)) }
{
    out.extend_from_slice(b"claims")?;
    put_version(out, switches)
}

fn put_proof(out: &mut Vec<u8>, line: &Line) -> Result<(), AllocError>
    requires { FromOne line.now }
    ensures text { OnOk result (out.new.items ≡ out.old.items ++ cert_text (Proof line.now)) }
    ensures small { OnOk result (IsCertLine (Proof line.now)) }
{
    put_line(out, line)
}

fn put_branch(out: &mut Vec<u8>, node: (u32, Option<Rel>)) -> Result<(), AllocError>
    ensures { OnOk result (out.new.items ≡ out.old.items ++ cert_text (Branch node.0 node.1)) }
{
    out.push(b'b')?;
    put_node(out, node)
}

fn put_no_point(
    out: &mut Vec<u8>,
    node: (u32, Option<Rel>),
    need: u64,
    clause: u64,
) -> Result<(), AllocError>
    ensures { OnOk result (out.new.items ≡ out.old.items ++ cert_text (NoPoint node.0 node.1 need clause)) }
{
    out.push(b'x')?;
    put_node(out, node)?;
    put_number(out, need)?;
    put_number(out, clause)
}

fn put_no_relation(out: &mut Vec<u8>, node: (u32, Option<Rel>), pair: u32) -> Result<(), AllocError>
    ensures { OnOk result (out.new.items ≡ out.old.items ++ cert_text (NoRelation node.0 node.1 pair)) }
{
    out.push(b'e')?;
    put_node(out, node)?;
    put_number(out, u64::from(pair))
}

fn put_world(
    out: &mut Vec<u8>,
    node: (u32, Option<Rel>),
    family: &RawFamily,
) -> Result<(), AllocError>
    ensures text { OnOk result (out.new.items ≡ out.old.items ++ cert_text (World node.0 node.1 family.now)) }
    ensures small { OnOk result (IsCertLine (World node.0 node.1 family.now)) }
{
    out.push(b'w')?;
    put_node(out, node)?;
    put_family(out, family)
}

fn put_holds(out: &mut Vec<u8>, subject: &Subject, family: &RawFamily) -> Result<(), AllocError>
    ensures text { OnOk result (out.new.items ≡ out.old.items ++ cert_text (Holds subject.now family.now)) }
    ensures small { OnOk result (IsCertLine (Holds subject.now family.now)) }
{
    out.extend_from_slice(b"some")?;
    put_subject(out, subject)?;
    put_family(out, family)
}

fn put_fails(out: &mut Vec<u8>, subject: &Subject) -> Result<(), AllocError>
    ensures text { OnOk result (out.new.items ≡ out.old.items ++ cert_text (Fails subject.now)) }
    ensures small { OnOk result (IsCertLine (Fails subject.now)) }
{
    out.extend_from_slice(b"none")?;
    put_subject(out, subject)
}

fn put_end(out: &mut Vec<u8>, to: &Option<Position>) -> Result<(), AllocError>
    ensures { OnOk result (out.new.items ≡ out.old.items ++ cert_text (End to.now)) }
{
    out.extend_from_slice(b"end")?;
    match to {
        Some(to) => put_position(out, to),
        None => out.extend_from_slice(b" -"),
    }
}
