//! The listing of worlds on a sink, within a budget: along alive prefixes where nobody counts nodes and nothing ends it, and else by
//! the search.
ghost use Rattle.std.specs.Prelude.{◌≡◌, [], Some, IfOk, OnOk};
ghost use Rattle.point_query.specs.Asking.{IsNewAsker};
ghost use Rattle.world_search.specs.Searching.{begun};
ghost use Rattle.world_search.specs.Told.{IsToldTo};
ghost use Rattle.run_ends.specs.Runs.{Leaves};
ghost use Rattle.listing_run.specs.Plans.{IsPlan};
ghost use Rattle.listing_run.specs.Putting.{IsPutToStop, IsPutPartly, IsSearchOf, GoesToNext, IsListingStop};
ghost use Rattle.listing_run.specs.Logged.{MetAt, StoppedAt, TellsOn, IsListedIn};

use crate::plan::{Listed, ListingPlan, Stop};
use crate::table_listing::{put_tables, tables_for};
use cert_text::{NoLog, TreeLog};
use outer_store::{Sink, StoreFault};
use point_query::Asker;
use rcc5_core::Position;
use run_ends::put_world;
use std::alloc::{AllocError, Global};
use world_search::{Nodes, Search, Step, TableStep, is_spent, one_less, store_fault};

/// What a search meets next.
#[derive(Drop)]
pub(crate) enum Met {
    World(Position),
    /// No node may be visited any more, and this one is next.
    Cut(Position),
    /// All nodes below the end are passed. The least node that is not below it, if there is one.
    End(Option<Position>),
}

// What a search meets next, where nothing is logged.
fn next_unlogged(
    plan: &ListingPlan,
    asker: &mut Asker,
    search: &mut Search,
    nodes: &mut Nodes,
) -> Result<Met, AllocError>
    requires { IsSearchOf plan.now search.old asker.old }
    ensures { GoesToNext result search.old search.new asker.old asker.new nodes.old.left nodes.new.left }
{
    match search.next_table(&plan.problem, asker, nodes)? {
        TableStep::World(table) => Ok(Met::World(table)),
        TableStep::Spent(node) => Ok(Met::Cut(node)),
        TableStep::End(node) => Ok(Met::End(node)),
    }
}

// What a search meets next, where the log is told of each node that is passed.
fn next_logged<L: TreeLog>(
    plan: &ListingPlan,
    asker: &mut Asker,
    search: &mut Search,
    nodes: &mut Nodes,
    log: &mut L,
) -> Result<Met, StoreFault>
    requires { IsSearchOf plan.now search.old asker.old }
    ensures met { GoesToNext result search.old search.new asker.old asker.new nodes.old.left nodes.new.left }
    ensures told { TellsOn L.lines L.faults L.steady L.quiet MetAt plan.now result search.old search.new asker.old asker.new log.old log.new }
{
    match search.next(&plan.problem, asker, nodes, log) {
        Ok(Step::World(table, _family)) => Ok(Met::World(table)),
        Ok(Step::Spent(node)) => Ok(Met::Cut(node)),
        Ok(Step::End(node)) => Ok(Met::End(node)),
        Err(fault) => Err(store_fault(fault)),
    }
}

// What a search meets next. A log that drops its lines is told nothing.
fn next_met<L: TreeLog>(
    plan: &ListingPlan,
    asker: &mut Asker,
    search: &mut Search,
    nodes: &mut Nodes,
    log: &mut L,
) -> Result<Met, StoreFault>
    requires { IsSearchOf plan.now search.old asker.old }
    ensures met { GoesToNext result search.old search.new asker.old asker.new nodes.old.left nodes.new.left }
    ensures told { TellsOn L.lines L.faults L.steady L.quiet MetAt plan.now result search.old search.new asker.old asker.new log.old log.new }
{
    if log.is_dropping() {
        return Ok(next_unlogged(plan, asker, search, nodes)?);
    }
    next_logged(plan, asker, search, nodes, log)
}

// Where a listing stops whose limit of worlds is reached: before the node that is next, or at the end. No node is visited.
#[tactic(auto, using(crate::proofs::ListingLemmas::stop_rules))]
fn put_stop<L: TreeLog>(
    plan: &ListingPlan,
    asker: &mut Asker,
    search: &mut Search,
    log: &mut L,
) -> Result<Stop, StoreFault>
    requires { IsSearchOf plan.now search.old asker.old }
    ensures stop { IfOk result (IsListingStop search.old search.new) }
    ensures none_waits { OnOk result (asker.new.solver.waiting ≡ []) }
    ensures told { TellsOn L.lines L.faults L.steady L.quiet StoppedAt plan.now result search.old search.new asker.old asker.new log.old log.new }
{
    let mut none = Nodes { left: Some(0) };
    match next_met(plan, asker, search, &mut none, log)? {
        Met::Cut(node) => Ok(Stop::Cut(node)),
        Met::End(node) => Ok(Stop::End(node)),
        Met::World(_) => unreachable!(),
    }
}

// Puts the line of each world when the search finds it, until the budget is used up or the end is reached.
#[tactic(auto, using(crate::proofs::ListingLemmas::world_rules))]
fn put_found_worlds<W: Sink, L: TreeLog>(
    alloc: Global,
    out: &mut W,
    plan: &ListingPlan,
    asker: &mut Asker,
    search: &mut Search,
    log: &mut L,
) -> Result<Listed, StoreFault>
    requires begun { search.old ≡ begun plan.now.problem plan.now.start plan.now.end }
    requires fresh { IsNewAsker plan.now.problem asker.old }
    ensures { IsListedIn L.lines L.faults L.steady L.quiet (IsToldTo plan.now.problem plan.now.start (L.lines log.old)) plan.now result (W.state out.old) (W.state out.new) log.old log.new }
{
    plan.problem.facts();
    let mut nodes = Nodes { left: plan.nodes };
    let mut worlds = plan.worlds;
    let mut count: u64 = 0;
    'worlds: while !is_spent(worlds) {
        match next_met(plan, asker, search, &mut nodes, log)? {
            Met::World(table) => {
                put_world(alloc, out, &table)?;
                count = count.saturating_add(1);
                worlds = one_less(worlds);
            }
            Met::Cut(node) => {
                return Ok(Listed {
                    count,
                    stop: Stop::Cut(node),
                });
            }
            Met::End(node) => {
                return Ok(Listed {
                    count,
                    stop: Stop::End(node),
                });
            }
        }
    }
    let stop = put_stop(plan, asker, search, log)?;
    Ok(Listed { count, stop })
}

/// A copy of a position, where there is one.
pub(crate) fn copy_of(
    alloc: Global,
    place: &Option<Position>,
) -> Result<Option<Position>, AllocError>
    ensures { IfOk result (λ copy. copy ≡ place.now) }
{
    match place {
        None => Ok(None),
        Some(position) => Ok(Some(position.copy(alloc)?)),
    }
}

// A search for the worlds of a plan.
fn search_of(alloc: Global, plan: &ListingPlan) -> Result<Search, AllocError>
    requires { IsPlan plan.now }
    ensures { IfOk result (λ search. search ≡ begun plan.now.problem plan.now.start plan.now.end) }
{
    let start = plan.start.copy(alloc)?;
    let end = copy_of(alloc, &plan.end)?;
    Search::from(alloc, &plan.problem, start, end)
}

/// Puts a line of letters for each possible world of a plan when it is found, each line in one put, until the plan's budget is
/// used up or its end is reached. The log, in which the certificate's first line stands, is told of each node.
pub(crate) fn put_logged_worlds<W: Sink, L: TreeLog>(
    alloc: Global,
    out: &mut W,
    plan: &ListingPlan,
    log: &mut L,
) -> Result<Listed, StoreFault>
    requires { IsPlan plan.now }
    ensures { IsListedIn L.lines L.faults L.steady L.quiet (IsToldTo plan.now.problem plan.now.start (L.lines log.old)) plan.now result (W.state out.old) (W.state out.new) log.old log.new }
{
    plan.problem.facts();
    let mut asker = Asker::new(alloc, &plan.problem)?;
    let mut search = search_of(alloc, plan)?;
    put_found_worlds(alloc, out, plan, &mut asker, &mut search, log)
}

/// Puts the worlds of a plan with no log. Where nobody counts nodes and nothing ends the plan, a walk along alive prefixes lists them.
#[tactic(auto, using(crate::proofs::ListingLemmas::partly_nothing))]
pub(crate) fn put_worlds<W: Sink>(
    alloc: Global,
    out: &mut W,
    plan: &ListingPlan,
) -> Result<Listed, StoreFault>
    requires { IsPlan plan.now }
    ensures { Leaves result (λ listed. IsPutToStop plan.now (W.state out.old).bytes (W.state out.new).bytes listed.stop listed.count) (IsPutPartly plan.now (W.state out.old).bytes (W.state out.new).bytes) (W.state out.old) (W.state out.new) }
{
    plan.problem.facts();
    if let Some(mut tables) = tables_for(alloc, plan)? {
        return put_tables(alloc, out, plan, &mut tables);
    }
    let mut none = NoLog::new();
    put_logged_worlds(alloc, out, plan, &mut none)
}
