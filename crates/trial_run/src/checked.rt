//! A listing whose certificate is checked.
ghost use Rattle.std.specs.Prelude.{◌≡◌, [], None, IfOk, IfSome};
ghost use Rattle.world_model.specs.Listing.{IsListing};
ghost use Rattle.cert_rules.specs.Files.{Listing};
ghost use Rattle.cert_check.specs.Answers.{verdict_of};
ghost use Rattle.trial_run.specs.Steps.{AreFound};

use crate::listing::put_listing;
use cert_check::{Accepted, Worlds, check};
use cert_text::StoreLog;
use constraint_set::Problem;
use outer_store::{StoreReader, SureStore};
use std::alloc::{AllocError, Global};

// Writes the certificate of all worlds under a name, and answers how many there are. The store has no faults, so only memory may be
// wanting.
fn write_cert(
    alloc: Global,
    problem: &Problem,
    store: &mut SureStore,
    name: &str,
) -> Result<u64, AllocError>
    ensures { IfOk result (AreFound problem.now None) }
{
    let mut text = Vec::new(alloc);
    let mut log = StoreLog::new(store, name, &mut text);
    let found = match put_listing(alloc, problem, &mut log) {
        Ok(found) => found,
        Err(_) => return Err(AllocError),
    };
    match log.finish() {
        Ok(()) => Ok(found),
        Err(_) => Err(AllocError),
    }
}

// The worlds of a listing of all that there are.
fn all_worlds(accepted: Accepted) -> Option<Worlds>
    ensures { IfSome result (λ worlds. verdict_of accepted ≡ Listing [] None worlds) }
{
    match accepted {
        Accepted::Listing { from, to, worlds } => {
            if from.is_empty() && to.is_none() {
                Some(worlds)
            } else {
                None
            }
        }
        Accepted::Claims(_) => None,
    }
}

// The worlds with which the certificate under a name is accepted. What was written is meant to be accepted with all worlds, unless it
// has more bytes than a certificate may have; no clause says so here, and any other answer is told as want of memory.
fn check_cert(
    alloc: Global,
    problem: &Problem,
    store: &mut SureStore,
    name: &str,
) -> Result<Worlds, AllocError>
    ensures { IfOk result (IsListing problem.now [] None) }
{
    let mut reader = StoreReader::new(store, name);
    let accepted = match check(alloc, problem, &mut reader) {
        Ok(accepted) => accepted,
        Err(_) => return Err(AllocError),
    };
    match all_worlds(accepted) {
        Some(worlds) => Ok(worlds),
        None => Err(AllocError),
    }
}

fn checked_over(
    alloc: Global,
    problem: &Problem,
    store: &mut SureStore,
) -> Result<(u64, Worlds), AllocError>
    ensures found { IfOk result (λ both. AreFound problem.now None both.0) }
    ensures accepted { IfOk result (λ both. IsListing problem.now [] None both.1) }
{
    let found = write_cert(alloc, problem, store, "cert")?;
    let worlds = check_cert(alloc, problem, store, "cert")?;
    Ok((found, worlds))
}

/// How many worlds a problem has by its listing, and the worlds with which the certificate of that listing is accepted.
pub(crate) fn checked_worlds(alloc: Global, problem: &Problem) -> Result<(u64, Worlds), AllocError>
    ensures found { IfOk result (λ both. AreFound problem.now None both.0) }
    ensures accepted { IfOk result (λ both. IsListing problem.now [] None both.1) }
{
    let mut store = SureStore::new(alloc);
    checked_over(alloc, problem, &mut store)
}
