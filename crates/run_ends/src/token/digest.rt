//! The digest of a problem.
ghost use Rattle.std.specs.Prelude.{◌≡◌, ◌++◌, string_bytes, IfOk, OnOk};
ghost use Rattle.proof_text.specs.Words.{switch_word};
ghost use Rattle.constraint_set.specs.Facts.{IsAsRead};
ghost use Rattle.run_ends.specs.Token.Token.{switches_line, digest_of};

use cleantax_text::print_problem;
use constraint_set::Problem;
use proof_text::switch_word;
use sha2::{Digest, Sha256};
use std::alloc::{AllocError, Global};
use world_model::Switches;

fn put_switches(out: &mut Vec<u8>, switches: Switches) -> Result<(), AllocError>
    ensures { OnOk result (out.new.items ≡ out.old.items ++ switches_line switches) }
{
    out.extend_from_slice(b"switches ")?;
    put_switch(out, switches.nonempty, b" ")?;
    put_switch(out, switches.sibling, b" ")?;
    put_switch(out, switches.coverage, b"\n")
}

// Puts the word of a switch, and what stands behind it.
fn put_switch(out: &mut Vec<u8>, switch: bool, behind: &[u8]) -> Result<(), AllocError>
    ensures { OnOk result (out.new.items ≡ out.old.items ++ switch_word switch ++ behind.now) }
{
    out.extend_from_slice(switch_word(switch))?;
    out.extend_from_slice(behind)
}

/// The digest of a problem, in hexadecimal digits.
pub(crate) fn digest_of(alloc: Global, problem: &Problem) -> Result<String, AllocError>
    requires { IsAsRead problem.now }
    ensures { IfOk result (λ digits. string_bytes digits ≡ digest_of problem.now) }
{
    let mut text = print_problem(alloc, problem)?;
    put_switches(&mut text, problem.switches())?;
    let digest = Sha256::digest(text.as_slice());
    hex::encode(alloc, digest.as_slice())
}
