//! A plan carried out: its listing, the token of its cut, and the last line.
ghost use Rattle.std.specs.Prelude.{◌≡◌, ◌≤◌, ◌++◌, [], ◌∷◌, length, None, string_bytes, IfOk, IfNone};
ghost use Rattle.world_model.specs.Problem.{pair_count};
ghost use Rattle.world_model.specs.Node.{IsCut};
ghost use Rattle.constraint_set.specs.Facts.{IsAsRead};
ghost use Rattle.listing_run.specs.Output.{cut_line, written_names};
ghost use Rattle.run_ends.specs.Ends.{complete_line};
ghost use Rattle.run_ends.specs.Runs.{LeavesPiece, IsCarriedOut};
ghost use Rattle.listing_run.specs.Steps.{cut_of, status_at, IsListingReady, IsCutEnded, IsEnded, plan_answers};

use crate::certified::put_listing;
use crate::plan::{Listed, ListingPlan, Stop};
use command_line::Word;
use constraint_set::Problem;
use outer_store::{Sink, Store, StoreFault};
use rcc5_core::Position;
use run_ends::{Status, put_complete, put_line, write_token};
use std::alloc::{AllocError, Global};

fn cut_words(alloc: Global, count: u64) -> Result<String, AllocError>
    ensures { IfOk result (λ words. string_bytes words ++ 10 ∷ [] ≡ cut_line count) }
{
    format!(in alloc; "cut {count}")
}

// How a whole listing of so many worlds ends.
fn whole_status(start: &Position, count: u64) -> Status
    ensures { result ≡ status_at start.now None count }
{
    if start.is_empty() && count == 0 {
        Status::NoWorld
    } else {
        Status::Done
    }
}

// Puts the last line of a whole listing.
fn end_whole<W: Sink>(
    alloc: Global,
    out: &mut W,
    start: &Position,
    count: u64,
) -> Result<Status, StoreFault>
    ensures ended { IfOk result (λ status. status ≡ status_at start.now None count) }
    ensures put { LeavesPiece result (complete_line count) (W.state out.old) (W.state out.new) }
{
    put_complete(alloc, out, count)?;
    Ok(whole_status(start, count))
}

// Writes the token of a cut, and then puts the last line.
fn end_cut<S: Store, W: Sink>(
    alloc: Global,
    store: &mut S,
    out: &mut W,
    problem: &Problem,
    name: &str,
    cut: Position,
    count: u64,
) -> Result<Status, StoreFault>
    requires problem { IsAsRead problem.now }
    requires cut { length cut ≤ pair_count problem.now }
    ensures { IsCutEnded result problem.now cut count name.now (S.state store.old) (S.state store.new) (W.state out.old) (W.state out.new) }
{
    write_token(alloc, store, name, problem, &cut)?;
    let words = cut_words(alloc, count)?;
    put_line(alloc, out, words.as_bytes())?;
    Ok(Status::Cut(cut))
}

// Ends a listing, by whether it was cut. One that was has a limit, and so a name for its token.
fn end_listing<S: Store, W: Sink>(
    alloc: Global,
    store: &mut S,
    out: &mut W,
    plan: &ListingPlan,
    token: &Option<Word>,
    listed: Listed,
) -> Result<Status, StoreFault>
    requires limited { IfNone token.now ((plan.now.nodes ≡ None) × (plan.now.worlds ≡ None)) }
    requires as_read { IsAsRead plan.now.problem }
    requires cut { IsCut plan.now.problem plan.now.start plan.now.nodes plan.now.worlds (cut_of listed.stop) }
    ensures { IsEnded result plan.now (cut_of listed.stop) listed.count token.now (S.state store.old) (S.state store.new) (W.state out.old) (W.state out.new) }
{
    match (listed.stop, token) {
        (Stop::End(_), _) => end_whole(alloc, out, &plan.start, listed.count),
        (Stop::Cut(cut), Some(name)) => end_cut(
            alloc,
            store,
            out,
            &plan.problem,
            name.text(),
            cut,
            listed.count,
        ),
        (Stop::Cut(_), None) => unreachable!(),
    }
}

/// Puts the listing of a plan and writes its certificate, if one is asked for; then writes the token of its cut, if there is
/// one, and puts the last line.
pub(crate) fn carry_out<S: Store, W: Sink>(
    alloc: Global,
    store: &mut S,
    out: &mut W,
    plan: &ListingPlan,
    cert: &Option<Word>,
    token: &Option<Word>,
) -> Result<Status, StoreFault>
    requires { IsListingReady plan.now cert.now token.now }
    ensures { IsCarriedOut (plan_answers plan.now cert.now token.now) result (written_names cert.now token.now) (S.state store.old) (S.state store.new) (W.state out.old) (W.state out.new) }
{
    let listed = put_listing(alloc, store, out, plan, cert)?;
    end_listing(alloc, store, out, plan, token, listed)
}
