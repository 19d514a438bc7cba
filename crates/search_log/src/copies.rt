//! Copies of the asker's lines, for a log.
ghost use Rattle.std.specs.Prelude.{◌≡◌, All, IfOk, map};
ghost use Rattle.lits_core.specs.Derivation.{FromOne};
ghost use Rattle.cert_text.specs.Lines.{IdsFromOne};
ghost use Rattle.cert_text.specs.declared.line.CertLine.TheVariants.{Proof};

use cert_text::{CertLine, copy_proof};
use lits_core::Line;
use std::alloc::{AllocError, Global};

/// Lines of the derivation as those of a certificate, which wants ids from 1 on.
pub(crate) fn copy_lines(alloc: Global, lines: &[Line]) -> Result<Vec<CertLine>, AllocError>
    requires { All FromOne lines.now }
    ensures copies { IfOk result (λ copies. copies.items ≡ map Proof lines.now) }
    ensures ids { IfOk result (λ copies. All IdsFromOne copies.items) }
{
    let mut copies = Vec::new(alloc);
    for line in lines {
        copies.push(CertLine::Proof(copy_proof(alloc, line)?))?;
    }
    Ok(copies)
}
