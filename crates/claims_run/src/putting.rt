//! The lines of answers.
ghost use Rattle.std.specs.Prelude.{◌≡◌, IfOk};
ghost use Rattle.world_model.specs.Questions.{HasFlags};
ghost use Rattle.run_ends.specs.Runs.{LeavesPiece};
ghost use Rattle.claims_run.specs.Answering.{answer_text};
ghost use Rattle.claims_run.specs.Putting.{IsFlagged};
ghost use Rattle.claims_run.specs.declared.question.Answer.TheVariants.{Possible, Conflict};

use crate::count_line::put_count;
use crate::kept_lines::{count_kept, put_kept};
use crate::lattice_lines::lattice_text;
use crate::question::Answer;
use constraint_set::Problem;
use mir_report::MirSets;
use outer_store::{Sink, StoreFault};
use run_ends::put_lines;
use std::alloc::{AllocError, Global};
use world_watch::put_sets;

// The lines of possible relations.
fn mir_text(alloc: Global, problem: &Problem, mir: &MirSets) -> Result<Vec<u8>, AllocError>
    ensures { IfOk result (λ text. (some : _) → text.items ≡ answer_text problem.now (Possible mir.now some)) }
{
    let mut text = Vec::new(alloc);
    put_sets(&mut text, alloc, problem, &mir.sets)?;
    put_count(alloc, "mir", u64::from(problem.cross_count()), &mut text)?;
    Ok(text)
}

// The lines of a conflict.
fn conflict_text(alloc: Global, problem: &Problem, kept: &[bool]) -> Result<Vec<u8>, AllocError>
    requires { HasFlags problem.now kept.now }
    ensures { IfOk result (λ text. text.items ≡ answer_text problem.now (Conflict kept.now)) }
{
    let mut text = Vec::new(alloc);
    put_count(alloc, "conflict", count_kept(kept) as u64, &mut text)?;
    put_kept(alloc, problem, kept, &mut text)?;
    Ok(text)
}

// The text of an answer.
fn text_of(alloc: Global, problem: &Problem, answer: &Answer) -> Result<Vec<u8>, AllocError>
    requires { IsFlagged problem.now answer.now }
    ensures { IfOk result (λ text. text.items ≡ answer_text problem.now answer.now) }
{
    match answer {
        Answer::Possible { mir, .. } => mir_text(alloc, problem, mir),
        Answer::Consistent => Vec::from_slice(alloc, b"consistent\n"),
        Answer::Conflict(kept) => conflict_text(alloc, problem, kept.list()),
        Answer::Lattice(lattice) => lattice_text(alloc, problem, lattice),
    }
}

/// Puts an answer, a line in each put.
pub(crate) fn put_answer<W: Sink>(
    alloc: Global,
    out: &mut W,
    problem: &Problem,
    answer: &Answer,
) -> Result<(), StoreFault>
    requires { IsFlagged problem.now answer.now }
    ensures { LeavesPiece result (answer_text problem.now answer.now) (W.state out.old) (W.state out.new) }
{
    let text = text_of(alloc, problem, answer)?;
    put_lines(alloc, out, &text)
}
