//! What is to be listed, as words ask for it: the problem and the start are read from files.
ghost use Rattle.std.specs.Prelude.{◌≡◌, Ok, IfOk, IfErr, OnOk};
ghost use Rattle.outer_store.specs.States.{IsQuiet};
ghost use Rattle.run_ends.specs.Runs.{IsEarlyEnd};
ghost use Rattle.command_line.specs.Requests.{IsAlign};
ghost use Rattle.listing_run.specs.Output.{ComesTo, listing_names, IsListingAnswer};
ghost use Rattle.listing_run.specs.Steps.{IsListingReady};

use crate::plan::ListingPlan;
use command_line::AlignArgs;
use outer_store::Store;
use rcc5_core::Position;
use run_ends::{Status, position_given, problem_under};
use std::alloc::Global;

/// The plan that is asked for, or how the run ends without it. The problem is judged before the token is read.
pub(crate) fn plan_of<S: Store>(
    alloc: Global,
    store: &mut S,
    args: &AlignArgs,
) -> Result<ListingPlan, Status>
    requires { IsAlign args.now }
    ensures plan { IfOk result (λ plan. ComesTo args.now (S.state store.old).held (Ok plan)) }
    ensures ready { IfOk result (λ plan. IsListingReady plan args.now.cert args.now.token) }
    ensures quiet { OnOk result (IsQuiet (S.state store.old) (S.state store.new)) }
    ensures ended { IfErr result (λ status. IsEarlyEnd (listing_names args.now) (IsListingAnswer args.now) status (S.state store.old) (S.state store.new)) }
    ensures kept { (S.state store.new).held ≡ (S.state store.old).held }
{
    let problem = problem_under(alloc, store, args.input.text(), args.switches)?;
    let start = position_given(alloc, store, &problem, &args.resume)?;
    Ok(ListingPlan {
        problem,
        start: start.unwrap_or(Position::new(alloc)),
        end: None,
        nodes: args.nodes,
        worlds: args.worlds,
    })
}
