//! A part put: its worlds with their certificate, and how many they are.
ghost use Rattle.std.specs.Prelude.{◌≡◌, ◌++◌, ◌∷◌, [], string_bytes, IfOk};
ghost use Rattle.run_ends.specs.declared.Status.TheVariants.{Done};
ghost use Rattle.run_ends.specs.Runs.{LeavesPiece, IsCarriedOut};
ghost use Rattle.listing_run.specs.Part.Answering.{part_line};
ghost use Rattle.listing_run.specs.Part.Steps.{IsUncut, plan_answers};

use crate::certified::put_certified;
use crate::plan::ListingPlan;
use outer_store::{Sink, Store, StoreFault};
use run_ends::{Status, put_line};
use std::alloc::{AllocError, Global};

fn count_words(alloc: Global, count: u64) -> Result<String, AllocError>
    ensures { IfOk result (λ words. string_bytes words ++ 10 ∷ [] ≡ part_line count) }
{
    format!(in alloc; "part {count}")
}

// Puts the last line.
fn end_part<W: Sink>(alloc: Global, out: &mut W, count: u64) -> Result<Status, StoreFault>
    ensures ended { IfOk result (λ status. status ≡ Done) }
    ensures put { LeavesPiece result (part_line count) (W.state out.old) (W.state out.new) }
{
    let words = count_words(alloc, count)?;
    put_line(alloc, out, words.as_bytes())?;
    Ok(Status::Done)
}

/// Puts the worlds of a plan that no limit cuts, writes their certificate, and puts how many they are.
pub(crate) fn put_part<S: Store, W: Sink>(
    alloc: Global,
    store: &mut S,
    out: &mut W,
    plan: &ListingPlan,
    cert: &str,
) -> Result<Status, StoreFault>
    requires { IsUncut plan.now }
    ensures { IsCarriedOut (plan_answers plan.now cert.now) result (cert.now ∷ []) (S.state store.old) (S.state store.new) (W.state out.old) (W.state out.new) }
{
    let listed = put_certified(alloc, store, out, plan, cert)?;
    end_part(alloc, out, listed.count)
}
