//! A question, from its words to its status.
ghost use Rattle.std.specs.Prelude.{◌≡◌, false};
ghost use Rattle.constraint_set.specs.Facts.{IsAsRead};
ghost use Rattle.std.specs.Option.{option_to_list};
ghost use Rattle.run_ends.specs.Runs.{IsCarriedOut, IsRunOf};
ghost use Rattle.claims_run.specs.Answering.{has_too_many, answer_status, IsAnswerPut, IsClaimsAnswer, claims_names};

use crate::certified::settled;
use crate::putting::put_answer;
use crate::question::{Answer, Question};
use command_line::{ClaimsArgs, Word};
use constraint_set::Problem;
use outer_store::{Sink, Store, StoreFault};
use run_ends::{Status, problem_under, put_end};
use std::alloc::Global;
use world_model::Switches;

// With more articulations than these not all conflicts are looked for.
const MOST_ARTICULATIONS: u32 = 128;

// Whether a problem has more articulations than a question takes.
fn has_too_many(problem: &Problem, asked: Question) -> bool
    ensures { result ≡ has_too_many problem.now asked }
{
    match asked {
        Question::Relations | Question::Conflicts => false,
        Question::Lattice => problem.articulation_count() > MOST_ARTICULATIONS,
    }
}

// A good end by the answer.
fn status_of(answer: &Answer) -> Status
    ensures { result ≡ answer_status answer.now }
{
    match answer {
        Answer::Possible { some: false, .. } => Status::NoWorld,
        Answer::Possible { .. } | Answer::Conflict(_) | Answer::Lattice(_) => Status::Done,
        Answer::Consistent => Status::Consistent,
    }
}

// Answers a question about a problem, with its certificate, and puts the answer.
fn carry_out<S: Store, W: Sink>(
    alloc: Global,
    store: &mut S,
    out: &mut W,
    problem: &Problem,
    asked: Question,
    cert: &Option<Word>,
) -> Result<Status, StoreFault>
    requires as_read { IsAsRead problem.now }
    requires few { has_too_many problem.now asked ≡ false }
    ensures { IsCarriedOut (IsAnswerPut problem.now asked cert.now) result (option_to_list cert.now) (S.state store.old) (S.state store.new) (W.state out.old) (W.state out.new) }
{
    let answer = settled(alloc, store, problem, asked, cert)?;
    put_answer(alloc, out, problem, &answer)?;
    Ok(status_of(&answer))
}

// Answers a question about the problem under a name.
fn run_under<S: Store, W: Sink>(
    alloc: Global,
    store: &mut S,
    out: &mut W,
    asked: Question,
    input: &str,
    cert: &Option<Word>,
    switches: Switches,
) -> Status
    ensures { IsRunOf (claims_names input.now cert.now) (IsClaimsAnswer asked input.now cert.now switches) result (S.state store.old) (S.state store.new) (W.state out.old) (W.state out.new) }
{
    let problem = match problem_under(alloc, store, input, switches) {
        Ok(problem) => problem,
        Err(status) => return put_end(alloc, out, status),
    };
    if has_too_many(&problem, asked) {
        return put_end(alloc, out, Status::TooMany);
    }
    match carry_out(alloc, store, out, &problem, asked, cert) {
        Ok(status) => status,
        Err(StoreFault::Failed) => Status::WriteFault,
        Err(StoreFault::NoMemory) => put_end(alloc, out, Status::NoMemory),
    }
}

/// Answers a question about the problem under a name, writes the certificate of its claims where there is a name for one, puts the
/// answer, and answers how the run ended.
pub fn run_claims<S: Store, W: Sink>(
    alloc: Global,
    store: &mut S,
    out: &mut W,
    asked: Question,
    args: &ClaimsArgs,
) -> Status
    ensures { IsRunOf (claims_names args.now.input args.now.cert) (IsClaimsAnswer asked args.now.input args.now.cert args.now.switches) result (S.state store.old) (S.state store.new) (W.state out.old) (W.state out.new) }
{
    run_under(
        alloc,
        store,
        out,
        asked,
        args.input.text(),
        &args.cert,
        args.switches,
    )
}
