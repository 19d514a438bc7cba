//! What is to be listed, as words ask for it: the problem, the start and the end are read from files.
ghost use Rattle.std.specs.Prelude.{◌≡◌, ◌≤◌, [], length, unwrap_or, Ok, IfOk, IfErr, IfSome, OnOk};
ghost use Rattle.outer_store.specs.States.{IsQuiet};
ghost use Rattle.world_model.specs.Listing.{is_before_end};
ghost use Rattle.world_model.specs.Problem.{pair_count};
ghost use Rattle.command_line.specs.Requests.{IsPart};
ghost use Rattle.run_ends.specs.Runs.{IsEarlyEnd};
ghost use Rattle.listing_run.specs.Part.Answering.{plan_between, ComesTo, IsPartAnswer, part_names};
ghost use Rattle.listing_run.specs.Part.Steps.{IsUncut};

use crate::plan::ListingPlan;
use command_line::PartArgs;
use constraint_set::Problem;
use outer_store::Store;
use rcc5_core::Position;
use run_ends::{Status, position_given, problem_under};
use std::alloc::Global;
use std::cmp::Ordering;

// Whether a position comes before the end, which may be none.
fn is_before_end(start: &Position, end: &Option<Position>) -> bool
    ensures { result ≡ is_before_end start.now end.now }
{
    match end {
        None => true,
        Some(end) => start.compare(end) == Ordering::Less,
    }
}

// The plan of a part from one position up to another, or how the run ends of one that is empty.
fn plan_between(
    problem: Problem,
    start: Position,
    end: Option<Position>,
) -> Result<ListingPlan, Status>
    requires start { length start ≤ pair_count problem }
    requires end { IfSome end (λ position. length position ≤ pair_count problem) }
    ensures plan { result ≡ plan_between problem start end }
    ensures uncut { IfOk result IsUncut }
{
    if !is_before_end(&start, &end) {
        return Err(Status::EmptyPart);
    }
    Ok(ListingPlan {
        problem,
        start,
        end,
        nodes: None,
        worlds: None,
    })
}

/// The plan of the part that is asked for, or how the run ends without it. The problem is judged before a token is read, and both
/// tokens before the part is found empty.
pub(crate) fn plan_of<S: Store>(
    alloc: Global,
    store: &mut S,
    args: &PartArgs,
) -> Result<ListingPlan, Status>
    requires { IsPart args.now }
    ensures plan { IfOk result (λ plan. ComesTo args.now (S.state store.old).held (Ok plan)) }
    ensures uncut { IfOk result IsUncut }
    ensures quiet { OnOk result (IsQuiet (S.state store.old) (S.state store.new)) }
    ensures ended { IfErr result (λ status. IsEarlyEnd (part_names args.now) (IsPartAnswer args.now) status (S.state store.old) (S.state store.new)) }
    ensures kept { (S.state store.new).held ≡ (S.state store.old).held }
{
    let problem = problem_under(alloc, store, args.input.text(), args.switches)?;
    let start = position_given(alloc, store, &problem, &args.resume)?;
    let end = position_given(alloc, store, &problem, &args.until)?;
    plan_between(problem, start.unwrap_or(Position::new(alloc)), end)
}
