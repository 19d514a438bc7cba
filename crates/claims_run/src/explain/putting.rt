//! The lines of the least statements.
ghost use Rattle.std.specs.Prelude.{◌≡◌, length, string_bytes, IfOk};
ghost use Rattle.world_model.specs.Questions.{HasFlags};
ghost use Rattle.run_ends.specs.Runs.{LeavesPiece};
ghost use Rattle.claims_run.specs.Explain.Answering.{count_line, reason_text};

use crate::kept_lines::{count_kept, put_kept};
use constraint_set::Problem;
use outer_store::{Sink, StoreFault};
use run_ends::put_lines;
use std::alloc::{AllocError, Global};

// The first line, of so many statements.
fn count_line(alloc: Global, count: usize) -> Result<String, AllocError>
    ensures { IfOk result (λ line. string_bytes line ≡ count_line count) }
{
    format!(in alloc; "explain {count}\n")
}

// The text of the statements whose flag is true.
fn reason_text(alloc: Global, problem: &Problem, kept: &[bool]) -> Result<Vec<u8>, AllocError>
    requires { HasFlags problem.now kept.now }
    ensures { IfOk result (λ text. text.items ≡ reason_text problem.now kept.now) }
{
    let first = count_line(alloc, count_kept(kept))?;
    let mut text = Vec::from_slice(alloc, first.as_bytes())?;
    put_kept(alloc, problem, kept, &mut text)?;
    Ok(text)
}

/// Puts the statements whose flag is true, a line in each put.
pub(crate) fn put_reason<W: Sink>(
    alloc: Global,
    out: &mut W,
    problem: &Problem,
    kept: &[bool],
) -> Result<(), StoreFault>
    requires { HasFlags problem.now kept.now }
    ensures { LeavesPiece result (reason_text problem.now kept.now) (W.state out.old) (W.state out.new) }
{
    let text = reason_text(alloc, problem, kept)?;
    put_lines(alloc, out, &text)
}
