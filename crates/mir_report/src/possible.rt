//! The possible relations of the pairs across taxonomies.
ghost use Rattle.std.specs.Prelude.{◌≡◌, ◌<◌, ◌↔◌, All, IfOk, OnOk, IsTrue};
ghost use Rattle.world_model.specs.Problem.{pair_count};
ghost use Rattle.world_model.specs.Questions.{IsMet, IsPossibleRelation};
ghost use Rattle.constraint_set.specs.Shape.{shape_of};
ghost use Rattle.cert_text.specs.declared.line.Subject.TheVariants.{Kept, Narrowed};
ghost use Rattle.search_log.specs.Leading.{KeepsLeading};
ghost use Rattle.search_log.specs.Logging.{LogGoes};
ghost use Rattle.set_family.specs.Meeting.{IsMetBy};
ghost use Rattle.pick_search.specs.Blocks.Blocks.{claimed, KeepsClaims};
ghost use Rattle.mir_report.specs.Possible.{IsPossibleSet, ArePossibleSets, pair_claims, claims_from, whole_claim};
ghost use Rattle.mir_report.specs.Steps.{claim_if_allowed, claim_if_refuted};

use crate::bare::bare_sets;
use crate::found::{put, shown_by};
use cert_text::{Flags, Subject, TreeLog};
use constraint_set::Problem;
use dead_pairs::{Hints, Lone, why_dead};
use pick_search::{refute, settle, show};
use point_ladder::{MOST_POINTS, MOST_TRIES};
use point_query::Asker;
use rcc5_core::{Rel, RelSet};
use search_log::StepFault;
use set_family::Family;
use split_search::Choice;
use std::alloc::{AllocError, Global};

/// The relations, in their order.
pub(crate) const RELS: [Rel; 5] = [
    Rel::Equals,
    Rel::Includes,
    Rel::IncludedIn,
    Rel::Overlaps,
    Rel::Disjoint,
];

/// For each pair across taxonomies, in order, the relations that some possible world has there.
#[derive(Drop)]
pub struct MirSets {
    pub sets: Vec<RelSet>,
}

// Claims that a relation is not possible at a pair, where the hints lead to why.
fn refute_rel<L: TreeLog>(
    alloc: Global,
    problem: &Problem,
    pair: u32,
    rel: Rel,
    hints: &mut Hints,
    asker: &mut Asker,
    log: &mut L,
) -> Result<bool, StepFault>
    requires shape { asker.old.shape ≡ shape_of problem.now }
    requires within { pair < pair_count problem.now }
    ensures shape { asker.new.shape ≡ asker.old.shape }
    ensures answer { IfOk result (λ done. IsTrue done → IsPossibleRelation problem.now pair rel → ⊥) }
    ensures keeps { KeepsClaims problem.now result (λ done more. more ≡ claim_if_refuted pair rel done) (L.lines log.old) (L.lines log.new) asker.old asker.new }
    ensures leads { KeepsLeading (L.lines log.old) (L.lines log.new) asker.old asker.new }
    ensures log { LogGoes L.drops L.lines L.faults L.steady L.quiet result log.old log.new }
{
    let Some(closing) = why_dead(problem, asker, hints, Lone { pair, rel })? else {
        return Ok(false);
    };
    let subject = Subject::Narrowed { pair, rel };
    refute(alloc, &subject, closing.need, closing.clause, asker, log)?;
    Ok(true)
}

// Searches for a family that shows a relation at a pair, and claims what comes of it. A family that is found is kept with the others.
fn search_rel<L: TreeLog>(
    alloc: Global,
    problem: &Problem,
    pair: u32,
    rel: Rel,
    families: &mut Vec<Family>,
    asker: &mut Asker,
    log: &mut L,
) -> Result<bool, StepFault>
    requires shape { asker.old.shape ≡ shape_of problem.now }
    requires within { pair < pair_count problem.now }
    requires families { All (IsMetBy problem.now) families.old.items }
    ensures shape { asker.new.shape ≡ asker.old.shape }
    ensures families { OnOk result (All (IsMetBy problem.now) families.new.items) }
    ensures answer { IfOk result (λ some. IsTrue some ↔ IsPossibleRelation problem.now pair rel) }
    ensures keeps { KeepsClaims problem.now result (λ some more. more ≡ claimed (Narrowed pair rel) some) (L.lines log.old) (L.lines log.new) asker.old asker.new }
    ensures leads { KeepsLeading (L.lines log.old) (L.lines log.new) asker.old asker.new }
    ensures log { LogGoes L.drops L.lines L.faults L.steady L.quiet result log.old log.new }
{
    let subject = Subject::Narrowed { pair, rel };
    let narrowed = problem.narrowed(alloc, pair, RelSet::one(rel))?;
    match settle(alloc, &subject, &narrowed, asker, log)? {
        Choice::Met(family) => {
            put(families, family)?;
            Ok(true)
        }
        Choice::Refuted => Ok(false),
    }
}

/// Whether a relation is possible at a pair, and the claim that says so. A family that was found for it is kept with the others.
///
/// First the families are looked at, and then why no other can show it; only where both come to nothing one is searched for.
fn settle_rel<L: TreeLog>(
    alloc: Global,
    problem: &Problem,
    pair: u32,
    rel: Rel,
    families: &mut Vec<Family>,
    hints: &mut Hints,
    asker: &mut Asker,
    log: &mut L,
) -> Result<bool, StepFault>
    requires shape { asker.old.shape ≡ shape_of problem.now }
    requires within { pair < pair_count problem.now }
    requires families { All (IsMetBy problem.now) families.old.items }
    ensures shape { asker.new.shape ≡ asker.old.shape }
    ensures families { OnOk result (All (IsMetBy problem.now) families.new.items) }
    ensures answer { IfOk result (λ some. IsTrue some ↔ IsPossibleRelation problem.now pair rel) }
    ensures keeps { KeepsClaims problem.now result (λ some more. more ≡ claimed (Narrowed pair rel) some) (L.lines log.old) (L.lines log.new) asker.old asker.new }
    ensures leads { KeepsLeading (L.lines log.old) (L.lines log.new) asker.old asker.new }
    ensures log { LogGoes L.drops L.lines L.faults L.steady L.quiet result log.old log.new }
{
    problem.facts();
    if let Some(family) = shown_by(families, problem, pair, rel) {
        let subject = Subject::Narrowed { pair, rel };
        show(alloc, &subject, family, asker, log)?;
        return Ok(true);
    }
    if refute_rel(alloc, problem, pair, rel, hints, asker, log)? {
        return Ok(false);
    }
    search_rel(alloc, problem, pair, rel, families, asker, log)
}

// Whether a relation of a pair is possible, asked where the pair allows it. Else it is not, and nothing is claimed.
fn settle_if_allowed<L: TreeLog>(
    alloc: Global,
    problem: &Problem,
    pair: u32,
    rel: Rel,
    families: &mut Vec<Family>,
    hints: &mut Hints,
    asker: &mut Asker,
    log: &mut L,
) -> Result<bool, StepFault>
    requires shape { asker.old.shape ≡ shape_of problem.now }
    requires within { pair < pair_count problem.now }
    requires families { All (IsMetBy problem.now) families.old.items }
    ensures shape { asker.new.shape ≡ asker.old.shape }
    ensures families { OnOk result (All (IsMetBy problem.now) families.new.items) }
    ensures answer { IfOk result (λ some. IsTrue some ↔ IsPossibleRelation problem.now pair rel) }
    ensures keeps { KeepsClaims problem.now result (λ some more. more ≡ claim_if_allowed problem.now pair rel some) (L.lines log.old) (L.lines log.new) asker.old asker.new }
    ensures leads { KeepsLeading (L.lines log.old) (L.lines log.new) asker.old asker.new }
    ensures log { LogGoes L.drops L.lines L.faults L.steady L.quiet result log.old log.new }
{
    if !problem.allowed(pair).has(rel) {
        return Ok(false);
    }
    settle_rel(alloc, problem, pair, rel, families, hints, asker, log)
}

// The possible relations of a pair, and a claim for each that it allows.
fn settle_pair<L: TreeLog>(
    alloc: Global,
    problem: &Problem,
    pair: u32,
    families: &mut Vec<Family>,
    hints: &mut Hints,
    asker: &mut Asker,
    log: &mut L,
) -> Result<RelSet, StepFault>
    requires shape { asker.old.shape ≡ shape_of problem.now }
    requires within { pair < pair_count problem.now }
    requires families { All (IsMetBy problem.now) families.old.items }
    ensures shape { asker.new.shape ≡ asker.old.shape }
    ensures families { OnOk result (All (IsMetBy problem.now) families.new.items) }
    ensures answer { IfOk result (IsPossibleSet problem.now pair) }
    ensures keeps { KeepsClaims problem.now result (λ set more. more ≡ pair_claims problem.now pair set) (L.lines log.old) (L.lines log.new) asker.old asker.new }
    ensures leads { KeepsLeading (L.lines log.old) (L.lines log.new) asker.old asker.new }
    ensures log { LogGoes L.drops L.lines L.faults L.steady L.quiet result log.old log.new }
{
    let mut set = RelSet::none();
    'rels: for rel in RELS {
        if settle_if_allowed(alloc, problem, pair, rel, families, hints, asker, log)? {
            set = set.with(rel);
        }
    }
    Ok(set)
}

/// The possible relations of each pair across taxonomies, exactly.
///
/// A log is told a claim for each relation that such a pair allows, pair by pair, and no tree is left open. For one that drops its
/// lines, fewer questions are asked.
pub fn mir<L: TreeLog>(
    alloc: Global,
    problem: &Problem,
    asker: &mut Asker,
    log: &mut L,
) -> Result<MirSets, StepFault>
    requires shape { asker.old.shape ≡ shape_of problem.now }
    ensures shape { asker.new.shape ≡ asker.old.shape }
    ensures sets { IfOk result (λ mir. ArePossibleSets problem.now mir.sets.items) }
    ensures keeps { KeepsClaims problem.now result (λ mir more. more ≡ claims_from problem.now 0 mir.sets.items) (L.lines log.old) (L.lines log.new) asker.old asker.new }
    ensures leads { KeepsLeading (L.lines log.old) (L.lines log.new) asker.old asker.new }
    ensures log { LogGoes L.drops L.lines L.faults L.steady L.quiet result log.old log.new }
{
    if log.is_dropping() {
        return Ok(bare_sets(alloc, problem, asker)?);
    }
    let mut hints = Hints::new(alloc, problem, MOST_POINTS, MOST_TRIES)?;
    let mut families = Vec::new(alloc);
    let mut sets = Vec::new(alloc);
    'pairs: for pair in 0..problem.cross_count() {
        let set = settle_pair(alloc, problem, pair, &mut families, &mut hints, asker, log)?;
        put(&mut sets, set)?;
    }
    Ok(MirSets { sets })
}

/// Whether there is a possible world, by the possible relations. Where there is no pair across taxonomies it is asked, and claimed.
pub fn has_world<L: TreeLog>(
    alloc: Global,
    problem: &Problem,
    mir: &MirSets,
    asker: &mut Asker,
    log: &mut L,
) -> Result<bool, StepFault>
    requires shape { asker.old.shape ≡ shape_of problem.now }
    requires sets { ArePossibleSets problem.now mir.now.sets.items }
    ensures shape { asker.new.shape ≡ asker.old.shape }
    ensures answer { IfOk result (λ some. IsTrue some ↔ IsMet problem.now) }
    ensures keeps { KeepsClaims problem.now result (λ some more. more ≡ whole_claim problem.now mir.now.sets.items some) (L.lines log.old) (L.lines log.new) asker.old asker.new }
    ensures leads { KeepsLeading (L.lines log.old) (L.lines log.new) asker.old asker.new }
    ensures log { LogGoes L.drops L.lines L.faults L.steady L.quiet result log.old log.new }
{
    // A world has some relation at each pair, so the sets are all empty or none is.
    match mir.sets.first() {
        Some(set) => Ok(!set.is_empty()),
        None => is_met(alloc, problem, asker, log),
    }
}

// Whether a family meets the problem, and the claim that says so.
fn is_met<L: TreeLog>(
    alloc: Global,
    problem: &Problem,
    asker: &mut Asker,
    log: &mut L,
) -> Result<bool, StepFault>
    requires shape { asker.old.shape ≡ shape_of problem.now }
    ensures shape { asker.new.shape ≡ asker.old.shape }
    ensures answer { IfOk result (λ some. IsTrue some ↔ IsMet problem.now) }
    ensures keeps { KeepsClaims problem.now result (λ some more. more ≡ claimed (Kept problem.now.kept) some) (L.lines log.old) (L.lines log.new) asker.old asker.new }
    ensures leads { KeepsLeading (L.lines log.old) (L.lines log.new) asker.old asker.new }
    ensures log { LogGoes L.drops L.lines L.faults L.steady L.quiet result log.old log.new }
{
    problem.facts();
    let subject = Subject::Kept(Flags::new(kept_flags(alloc, problem)?));
    match settle(alloc, &subject, problem, asker, log)? {
        Choice::Met(_) => Ok(true),
        Choice::Refuted => Ok(false),
    }
}

// For each articulation whether it is kept.
fn kept_flags(alloc: Global, problem: &Problem) -> Result<Vec<bool>, AllocError>
    ensures { IfOk result (λ flags. flags.items ≡ problem.now.kept) }
{
    problem.facts();
    let mut flags = Vec::new(alloc);
    'flags: for index in 0..problem.articulation_count() {
        flags.push(problem.is_kept(index))?;
    }
    Ok(flags)
}
