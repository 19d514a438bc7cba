//! A listing with its certificate, which is written while the worlds are put.
ghost use Rattle.std.specs.Prelude.{◌≡◌, [], Some, IfOk, OnOk};
ghost use Rattle.cert_text.specs.declared.line.CertLine.TheVariants.{Certificate, End};
ghost use Rattle.cert_text.specs.StoreLogs.{log_lines, log_faults, log_steady, log_quiet, waiting_text};
ghost use Rattle.world_search.specs.Told.{IsToldWhole};
ghost use Rattle.listing_run.specs.Plans.{IsPlan, stop_place};
ghost use Rattle.listing_run.specs.Logged.{IsListedIn, IsListedWith};

use crate::listing::{copy_of, put_logged_worlds, put_worlds};
use crate::plan::{Listed, ListingPlan, Stop};
use cert_text::{CertLine, StoreLog, TreeLog};
use command_line::Word;
use outer_store::{Sink, Store, StoreFault};
use std::alloc::{AllocError, Global};

// The first line of a certificate.
fn first_line(alloc: Global, plan: &ListingPlan) -> Result<CertLine, AllocError>
    ensures { IfOk result (λ line. line ≡ Certificate plan.now.problem.switches plan.now.start) }
{
    Ok(CertLine::Certificate {
        switches: plan.problem.switches(),
        from: plan.start.copy(alloc)?,
    })
}

// The last line, by where the listing stopped.
fn last_line(alloc: Global, stop: &Stop) -> Result<CertLine, AllocError>
    ensures { IfOk result (λ line. line ≡ End (stop_place stop.now)) }
{
    match stop {
        Stop::Cut(node) => Ok(CertLine::End(Some(node.copy(alloc)?))),
        Stop::End(node) => Ok(CertLine::End(copy_of(alloc, node)?)),
    }
}

// Puts the listing of a plan, and in a log its certificate.
fn put_lines<W: Sink, L: TreeLog>(
    alloc: Global,
    out: &mut W,
    plan: &ListingPlan,
    log: &mut L,
) -> Result<Listed, StoreFault>
    requires { IsPlan plan.now }
    ensures { IsListedIn L.lines L.faults L.steady L.quiet (IsToldWhole plan.now.problem plan.now.start (L.lines log.old)) plan.now result (W.state out.old) (W.state out.new) log.old log.new }
{
    plan.problem.facts();
    let first = first_line(alloc, plan)?;
    log.put_line(&first)?;
    let listed = put_logged_worlds(alloc, out, plan, log)?;
    let last = last_line(alloc, &listed.stop)?;
    log.put_line(&last)?;
    Ok(listed)
}

// Puts the lines of a listing and of its certificate, and then all that wait in the store. That the log is the same one still is a clause of its own, since what a log over a store leaves of it hangs on that.
fn put_to_end<S: Store, W: Sink>(
    alloc: Global,
    out: &mut W,
    plan: &ListingPlan,
    log: &mut StoreLog<S>,
) -> Result<Listed, StoreFault>
    requires { IsPlan plan.now }
    ensures listed { IsListedIn (log_lines S.state) (log_faults S.state) (log_steady S.state) (log_quiet S.state) (IsToldWhole plan.now.problem plan.now.start (log_lines S.state log.old)) plan.now result (W.state out.old) (W.state out.new) log.old log.new }
    ensures steady { log_steady S.state log.old log.new }
    ensures none_waits { OnOk result (waiting_text log.new ≡ []) }
{
    let listed = put_lines(alloc, out, plan, log)?;
    log.finish()?;
    Ok(listed)
}

/// Puts the listing of a plan, and writes its certificate: just that is what the name then holds.
pub fn put_certified<S: Store, W: Sink>(
    alloc: Global,
    store: &mut S,
    out: &mut W,
    plan: &ListingPlan,
    name: &str,
) -> Result<Listed, StoreFault>
    requires { IsPlan plan.now }
    ensures { IsListedWith plan.now (Some name.now) result (S.state store.old) (S.state store.new) (W.state out.old) (W.state out.new) }
{
    plan.problem.facts();
    store.create(name)?;
    let mut text = Vec::new(alloc);
    let mut log = StoreLog::new(store, name, &mut text);
    put_to_end(alloc, out, plan, &mut log)
}

/// Puts the listing of a plan, and writes its certificate where there is a name for one.
pub fn put_listing<S: Store, W: Sink>(
    alloc: Global,
    store: &mut S,
    out: &mut W,
    plan: &ListingPlan,
    cert: &Option<Word>,
) -> Result<Listed, StoreFault>
    requires { IsPlan plan.now }
    ensures { IsListedWith plan.now cert.now result (S.state store.old) (S.state store.new) (W.state out.old) (W.state out.new) }
{
    match cert {
        None => put_worlds(alloc, out, plan),
        Some(name) => put_certified(alloc, store, out, plan, name.text()),
    }
}
