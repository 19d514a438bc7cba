//! The clauses on the relations of pairs.
ghost use Rattle.point_encode.specs.Model.Clauses.{is_so};
ghost use Rattle.family_solver.specs.Showing.{IsBegun, IsGround, IsRule, rel_variable, variable_count};
ghost use Rattle.lits_core.specs.Literals.{literal_of};
ghost use Rattle.rcc5_core.specs.Relation.{rank_of};
ghost use Rattle.rcc5_core.specs.RelationSet.{has};
ghost use Rattle.std.specs.Prelude.{Contains, IfOk, IsTrue, OnOk, length, ℕ, ◌<◌, ◌^◌, ◌≡◌};
ghost use Rattle.watch_arena.specs.Trails.{AreInRange};

use crate::clauses::{REGIONS, give, give_region, is_empty, is_occupied, lies};
use crate::ground::Ground;
use constraint_set::Problem;
use learn_solver::Solver;
use lits_core::Lit;
use rcc5_core::{Region, Rel, RelSet};
use std::alloc::{AllocError, Global};

const RELS: [Rel; 5] = [
    Rel::Equals,
    Rel::Includes,
    Rel::IncludedIn,
    Rel::Overlaps,
    Rel::Disjoint,
];

// The number of a relation among the five.
fn rank(rel: Rel) -> u32
    ensures { result ≡ rank_of rel }
{
    match rel {
        Rel::Equals => 0,
        Rel::Includes => 1,
        Rel::IncludedIn => 2,
        Rel::Overlaps => 3,
        Rel::Disjoint => 4,
    }
}

/// The literal that says that the pair at a place has a relation, or has it not.
pub fn rel_lit(ground: &Ground, place: usize, rel: Rel, negative: bool) -> Lit
    requires few { variable_count ground.now < 2 ^ 31 }
    requires place { place < length ground.now.pairs.items }
    ensures { result ≡ literal_of (rel_variable ground.now place rel) negative }
{
    Lit::new(
        ground.points.len() as u32 + (5 * place as u32 + rank(rel)),
        negative,
    )
}

// Adds the literal of a relation that a set has.
fn push_rel(
    lits: &mut Vec<Lit>,
    ground: &Ground,
    place: usize,
    set: RelSet,
    rel: Rel,
) -> Result<(), AllocError>
    requires few { variable_count ground.now < 2 ^ 31 }
    requires place { place < length ground.now.pairs.items }
    ensures there { OnOk result (IsTrue (has set rel) → Contains lits.new.items (is_so (rel_variable ground.now place rel))) }
    ensures stay { OnOk result ((lit : ℕ) → Contains lits.old.items lit → Contains lits.new.items lit) }
    ensures range { OnOk result (AreInRange lits.old.items (variable_count ground.now) → AreInRange lits.new.items (variable_count ground.now)) }
{
    if set.has(rel) {
        lits.push(rel_lit(ground, place, rel, false))?;
    }
    Ok(())
}

/// The clause that the pair at a place has a relation of a set.
pub fn rule(
    alloc: Global,
    ground: &Ground,
    place: usize,
    set: RelSet,
) -> Result<Vec<Lit>, AllocError>
    requires few { variable_count ground.now < 2 ^ 31 }
    requires place { place < length ground.now.pairs.items }
    ensures { IfOk result (λ lits. IsRule ground.now place set lits.items) }
{
    let mut lits = Vec::new(alloc);
    push_rel(&mut lits, ground, place, set, Rel::Equals)?;
    push_rel(&mut lits, ground, place, set, Rel::Includes)?;
    push_rel(&mut lits, ground, place, set, Rel::IncludedIn)?;
    push_rel(&mut lits, ground, place, set, Rel::Overlaps)?;
    push_rel(&mut lits, ground, place, set, Rel::Disjoint)?;
    Ok(lits)
}

// Gives a solver that the pair at a place has a relation that it allows.
fn give_rule(
    alloc: Global,
    solver: &mut Solver,
    problem: &Problem,
    ground: &Ground,
    place: usize,
) -> Result<(), AllocError>
    requires ground { IsGround problem.now ground.now }
    requires place { place < length ground.now.pairs.items }
    requires begun { IsBegun problem.now ground.now solver.old }
    ensures begun { OnOk result (IsBegun problem.now ground.now solver.new) }
    ensures exact { OnOk result (solver.new.variables ≡ solver.old.variables) }
{
    let lits = rule(alloc, ground, place, problem.allowed(ground.pairs[place]))?;
    give(solver, problem, ground, &lits)
}

// Gives a solver that a region has a point where the pair at a place has a relation, if the relation says so.
fn give_occupied(
    alloc: Global,
    solver: &mut Solver,
    problem: &Problem,
    ground: &Ground,
    place: usize,
    rel: Rel,
    region: Region,
) -> Result<(), AllocError>
    requires ground { IsGround problem.now ground.now }
    requires place { place < length ground.now.pairs.items }
    requires begun { IsBegun problem.now ground.now solver.old }
    ensures begun { OnOk result (IsBegun problem.now ground.now solver.new) }
    ensures exact { OnOk result (solver.new.variables ≡ solver.old.variables) }
{
    if is_occupied(rel.row().at(region)) {
        let pair = problem.pair_at(ground.pairs[place]);
        let mut lits = Vec::new(alloc);
        lits.push(rel_lit(ground, place, rel, true))?;
        return give_region(solver, problem, ground, lits, pair, region);
    }
    Ok(())
}

// Gives a solver that a point is not there where the pair at a place has a relation, if the relation says that a region is empty in
// which the point lies.
fn give_barred(
    solver: &mut Solver,
    problem: &Problem,
    ground: &Ground,
    place: usize,
    rel: Rel,
    region: Region,
    point: usize,
) -> Result<(), AllocError>
    requires ground { IsGround problem.now ground.now }
    requires place { place < length ground.now.pairs.items }
    requires point { point < length ground.now.points.items }
    requires begun { IsBegun problem.now ground.now solver.old }
    ensures begun { OnOk result (IsBegun problem.now ground.now solver.new) }
    ensures exact { OnOk result (solver.new.variables ≡ solver.old.variables) }
{
    let pair = problem.pair_at(ground.pairs[place]);
    if is_empty(rel.row().at(region)) && lies(&ground.points[point], pair, region) {
        let lits = [
            rel_lit(ground, place, rel, true),
            Lit::new(point as u32, true),
        ];
        return give(solver, problem, ground, &lits);
    }
    Ok(())
}

// Gives a solver that a region has no point where the pair at a place has a relation, if the relation says so.
fn give_empty(
    solver: &mut Solver,
    problem: &Problem,
    ground: &Ground,
    place: usize,
    rel: Rel,
    region: Region,
) -> Result<(), AllocError>
    requires ground { IsGround problem.now ground.now }
    requires place { place < length ground.now.pairs.items }
    requires begun { IsBegun problem.now ground.now solver.old }
    ensures begun { OnOk result (IsBegun problem.now ground.now solver.new) }
    ensures exact { OnOk result (solver.new.variables ≡ solver.old.variables) }
{
    for point in 0..ground.points.len() {
        give_barred(solver, problem, ground, place, rel, region, point)?;
    }
    Ok(())
}

// Gives a solver what a relation of the pair at a place says of its regions: of those that are occupied, and, if that is wanted, of
// the empty ones.
fn give_relation(
    alloc: Global,
    solver: &mut Solver,
    problem: &Problem,
    ground: &Ground,
    place: usize,
    rel: Rel,
    empties: bool,
) -> Result<(), AllocError>
    requires ground { IsGround problem.now ground.now }
    requires place { place < length ground.now.pairs.items }
    requires begun { IsBegun problem.now ground.now solver.old }
    ensures begun { OnOk result (IsBegun problem.now ground.now solver.new) }
    ensures exact { OnOk result (solver.new.variables ≡ solver.old.variables) }
{
    'regions: for region in REGIONS {
        give_occupied(alloc, solver, problem, ground, place, rel, region)?;
        if empties && is_empty(rel.row().at(region)) {
            give_empty(solver, problem, ground, place, rel, region)?;
        }
    }
    Ok(())
}

/// Gives a solver what the relations of a set say of the regions of the pair at a place, as far as the pair allows them, and that it
/// has one that it allows. Where it allows a whole set, what is empty is given only if that is wanted: else it is left to the
/// questions.
pub fn give_place(
    alloc: Global,
    solver: &mut Solver,
    problem: &Problem,
    ground: &Ground,
    place: usize,
    set: RelSet,
    empties: bool,
) -> Result<(), AllocError>
    requires ground { IsGround problem.now ground.now }
    requires place { place < length ground.now.pairs.items }
    requires begun { IsBegun problem.now ground.now solver.old }
    ensures begun { OnOk result (IsBegun problem.now ground.now solver.new) }
    ensures exact { OnOk result (solver.new.variables ≡ solver.old.variables) }
{
    let allowed = problem.allowed(ground.pairs[place]);
    let empties = empties || !allowed.is_whole();
    if !allowed.is_whole() {
        give_rule(alloc, solver, problem, ground, place)?;
    }
    'rels: for rel in RELS {
        if set.has(rel) && allowed.has(rel) {
            give_relation(alloc, solver, problem, ground, place, rel, empties)?;
        }
    }
    Ok(())
}

// Gives a solver what the relations that they allow say of the pairs at all places.
pub(crate) fn give_places(
    alloc: Global,
    solver: &mut Solver,
    problem: &Problem,
    ground: &Ground,
) -> Result<(), AllocError>
    requires ground { IsGround problem.now ground.now }
    requires begun { IsBegun problem.now ground.now solver.old }
    ensures begun { OnOk result (IsBegun problem.now ground.now solver.new) }
    ensures exact { OnOk result (solver.new.variables ≡ solver.old.variables) }
{
    for place in 0..ground.pairs.len() {
        let set = problem.allowed(ground.pairs[place]);
        give_place(alloc, solver, problem, ground, place, set, false)?;
    }
    Ok(())
}
