//! The listing of all worlds, with its certificate.
ghost use Rattle.std.specs.Prelude.{◌≡◌, [], None, IfOk, OnOk};
ghost use Rattle.constraint_set.specs.Shape.{shape_of};
ghost use Rattle.point_query.specs.Asking.{IsNewAsker};
ghost use Rattle.cert_text.specs.Lines.{IdsFromOne};
ghost use Rattle.cert_text.specs.Logs.{IsToldWith};
ghost use Rattle.cert_text.specs.declared.line.CertLine.TheVariants.{Certificate};
ghost use Rattle.world_search.specs.Searching.{begun};
ghost use Rattle.world_search.specs.Logging.{KeepsOn, AddsLines};
ghost use Rattle.trial_run.specs.Steps.{AreFound};
ghost use Rattle.trial_run.specs.Searches.{IsFurther};
ghost use Rattle.world_search.specs.Told.{IsToldTo, IsToldWhole};

use cert_text::{CertLine, TreeLog};
use constraint_set::Problem;
use point_query::Asker;
use rcc5_core::Position;
use search_log::put_one;
use std::alloc::Global;
use world_search::{Nodes, Search, Step, StepFault};

// Whether the search goes past a further world. The log is told of each node.
#[tactic(auto, using(crate::proofs::FoundLemmas::step_world, crate::proofs::FoundLemmas::step_spent, crate::proofs::FoundLemmas::step_end))]
fn finds_next<L: TreeLog>(
    problem: &Problem,
    asker: &mut Asker,
    search: &mut Search,
    log: &mut L,
) -> Result<bool, StepFault>
    requires problem { search.old.problem ≡ problem.now }
    requires unbounded { search.old.to ≡ None }
    requires shape { asker.old.shape ≡ shape_of problem.now }
    ensures further { IfOk result (IsFurther search.old search.new) }
    ensures problem { search.new.problem ≡ search.old.problem }
    ensures from { search.new.from ≡ search.old.from }
    ensures to { search.new.to ≡ search.old.to }
    ensures asker { asker.new.shape ≡ asker.old.shape }
    ensures none_waits { OnOk result (asker.new.solver.waiting ≡ []) }
    ensures keeps { KeepsOn problem.now search.old.from (L.lines log.old) (L.lines log.new) asker.old asker.new search.old.expects search.new.expects }
    ensures told { OnOk result (AddsLines (L.lines log.old) (L.lines log.new)) }
{
    let mut nodes = Nodes { left: None };
    match search.next(problem, asker, &mut nodes, log) {
        Ok(Step::World(_, _)) => Ok(true),
        Ok(Step::Spent(_)) => Ok(false),
        Ok(Step::End(_)) => Ok(false),
        Err(fault) => Err(fault),
    }
}

// How many worlds a search finds that begins at the start.
fn count_worlds<L: TreeLog>(
    problem: &Problem,
    asker: &mut Asker,
    search: &mut Search,
    log: &mut L,
) -> Result<u64, StepFault>
    requires begun { search.old ≡ begun problem.now [] None }
    requires asker { IsNewAsker problem.now asker.old }
    ensures found { IfOk result (AreFound problem.now None) }
    ensures told { OnOk result (IsToldTo problem.now [] (L.lines log.old) None (L.lines log.new)) }
{
    problem.facts();
    let mut count: u64 = 0;
    'worlds: loop {
        let found = finds_next(problem, asker, search, log)?;
        if !found {
            return Ok(count);
        }
        count = count.saturating_add(1);
    }
}

// The first line of a certificate.
fn first_line(alloc: Global, problem: &Problem) -> CertLine
    ensures line { result ≡ Certificate problem.now.switches [] }
    ensures ids { IdsFromOne result }
{
    CertLine::Certificate {
        switches: problem.switches(),
        from: Position::new(alloc),
    }
}

// Here and below no `?` comes after a value that has to be dropped is made: each would be one more place that lets it go, and
// proving those is dear.
fn put_first<L: TreeLog>(alloc: Global, problem: &Problem, log: &mut L) -> Result<(), StepFault>
    ensures { OnOk result (IsToldWith (L.lines log.old) (Certificate problem.now.switches []) (L.lines log.new)) }
{
    let first = first_line(alloc, problem);
    put_one(log, &first)
}

// How many worlds there are, by a search of its own.
fn count_all<L: TreeLog>(
    alloc: Global,
    problem: &Problem,
    asker: &mut Asker,
    log: &mut L,
) -> Result<u64, StepFault>
    requires asker { IsNewAsker problem.now asker.old }
    ensures found { IfOk result (AreFound problem.now None) }
    ensures told { OnOk result (IsToldTo problem.now [] (L.lines log.old) None (L.lines log.new)) }
{
    let mut search = Search::from(alloc, problem, Position::new(alloc), None)?;
    count_worlds(problem, asker, &mut search, log)
}

// Puts all that comes between the first and the last line, and answers how many worlds there are.
fn put_nodes<L: TreeLog>(alloc: Global, problem: &Problem, log: &mut L) -> Result<u64, StepFault>
    ensures found { IfOk result (AreFound problem.now None) }
    ensures told { OnOk result (IsToldTo problem.now [] (L.lines log.old) None (L.lines log.new)) }
{
    let mut asker = Asker::new(alloc, problem)?;
    count_all(alloc, problem, &mut asker, log)
}

/// Puts the certificate of all worlds in a log, and answers how many there are.
pub(crate) fn put_listing<L: TreeLog>(
    alloc: Global,
    problem: &Problem,
    log: &mut L,
) -> Result<u64, StepFault>
    ensures found { IfOk result (AreFound problem.now None) }
    ensures told { OnOk result (IsToldWhole problem.now [] (L.lines log.old) None (L.lines log.new)) }
{
    put_first(alloc, problem, log)?;
    let found = put_nodes(alloc, problem, log)?;
    put_one(log, &CertLine::End(None))?;
    Ok(found)
}
