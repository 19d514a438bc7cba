//! The clauses on what articulations say.
ghost use Rattle.family_solver.specs.Showing.{IsBegun, IsGround, variable_count};
ghost use Rattle.family_solver.specs.Kept.Keeping.{IsBegunKept, IsSoKept};
ghost use Rattle.std.specs.List.{list_any};
ghost use Rattle.std.specs.Prelude.{IsTrue, OnOk, Some, length, not, slice_get, ◌+◌, ◌<◌, ◌^◌, ◌≡◌};
ghost use Rattle.watch_arena.specs.Trails.{AreInRange};
ghost use Rattle.world_model.specs.Alive.{bit_of, point_sums};
ghost use Rattle.world_model.specs.Problem.{concept_count, is_articulation};
ghost use Rattle.world_model.specs.declared.Articulation.TheVariants.{Pair, Sum};

use crate::kept::flags::flag_lit;
use crate::kept::ground::place_of;
use crate::{Ground, give_place, has_concept, rule};
use constraint_set::Problem;
use learn_solver::Solver;
use lits_core::{Bits, Lit, law_literals_are_sets};
use rcc5_core::RelSet;
use std::alloc::{AllocError, Global};
use world_model::Articulation;

// Gives a solver a clause that is so.
fn give(
    solver: &mut Solver,
    problem: &Problem,
    ground: &Ground,
    lits: &[Lit],
) -> Result<(), AllocError>
    requires range { AreInRange lits.now (variable_count ground.now + length problem.now.articulations) }
    requires so { IsSoKept problem.now ground.now lits.now }
    requires begun { IsBegunKept problem.now ground.now solver.old }
    ensures { OnOk result (IsBegunKept problem.now ground.now solver.new) }
{
    law_literals_are_sets();
    solver.add(lits)?;
    Ok(())
}

// Gives a solver that a pair has one of some relations, or the articulation that says so is not kept.
fn give_related(
    alloc: Global,
    solver: &mut Solver,
    problem: &Problem,
    ground: &Ground,
    index: u32,
    pair: (u32, u32),
    set: RelSet,
) -> Result<(), AllocError>
    requires few { variable_count ground.now + length problem.now.articulations < 2 ^ 31 }
    requires index { index < length problem.now.articulations }
    requires said { slice_get problem.now.articulations index ≡ Some (Pair pair.0 pair.1 set) }
    requires order { pair.0 < pair.1 }
    requires within { pair.1 < concept_count problem.now }
    requires begun { IsBegunKept problem.now ground.now solver.old }
    ensures { OnOk result (IsBegunKept problem.now ground.now solver.new) }
{
    let Some(place) = place_of(ground, problem.pair_index(pair.0, pair.1)) else {
        return Ok(());
    };
    let mut lits = rule(alloc, ground, place, set)?;
    lits.push(flag_lit(ground, index as usize, true))?;
    give(solver, problem, ground, &lits)
}

// Whether a point lies in one of some concepts.
fn is_in_one(point: &Bits, parts: &[u32]) -> bool
    ensures { result ≡ list_any (bit_of point.now) parts.now }
{
    parts.iter().any(|part| has_concept(point, *part))
}

// Whether a point lies in a whole and in none of its parts, or in a part and not in the whole.
fn breaks(point: &Bits, whole: u32, parts: &[u32]) -> bool
    ensures { result ≡ not (point_sums point.now (record { whole = whole; parts = parts.now })) }
{
    let in_part = is_in_one(point, parts);
    if has_concept(point, whole) {
        !in_part
    } else {
        in_part
    }
}

// Gives a solver that a point is not there if it breaks a sum, or the sum is not kept.
fn give_barred(
    solver: &mut Solver,
    problem: &Problem,
    ground: &Ground,
    index: u32,
    whole: u32,
    parts: &[u32],
    point: usize,
) -> Result<(), AllocError>
    requires few { variable_count ground.now + length problem.now.articulations < 2 ^ 31 }
    requires index { index < length problem.now.articulations }
    requires said { slice_get problem.now.articulations index ≡ Some (Sum whole parts.now) }
    requires fit { IsTrue (is_articulation problem.now (Sum whole parts.now)) }
    requires point { point < length ground.now.points.items }
    requires begun { IsBegunKept problem.now ground.now solver.old }
    ensures { OnOk result (IsBegunKept problem.now ground.now solver.new) }
{
    if breaks(&ground.points[point], whole, parts) {
        let lits = [
            flag_lit(ground, index as usize, true),
            Lit::new(point as u32, true),
        ];
        return give(solver, problem, ground, &lits);
    }
    Ok(())
}

// Gives a solver that no point is there that breaks a sum, or the sum is not kept.
fn give_sum(
    solver: &mut Solver,
    problem: &Problem,
    ground: &Ground,
    index: u32,
    whole: u32,
    parts: &[u32],
) -> Result<(), AllocError>
    requires few { variable_count ground.now + length problem.now.articulations < 2 ^ 31 }
    requires index { index < length problem.now.articulations }
    requires said { slice_get problem.now.articulations index ≡ Some (Sum whole parts.now) }
    requires fit { IsTrue (is_articulation problem.now (Sum whole parts.now)) }
    requires begun { IsBegunKept problem.now ground.now solver.old }
    ensures { OnOk result (IsBegunKept problem.now ground.now solver.new) }
{
    for point in 0..ground.points.len() {
        give_barred(solver, problem, ground, index, whole, parts, point)?;
    }
    Ok(())
}

// Gives a solver what an articulation says where it is kept.
fn give_articulation(
    alloc: Global,
    solver: &mut Solver,
    problem: &Problem,
    ground: &Ground,
    index: u32,
) -> Result<(), AllocError>
    requires few { variable_count ground.now + length problem.now.articulations < 2 ^ 31 }
    requires index { index < length problem.now.articulations }
    requires begun { IsBegunKept problem.now ground.now solver.old }
    ensures { OnOk result (IsBegunKept problem.now ground.now solver.new) }
{
    match problem.articulation(index) {
        Articulation::Pair { left, right, set } => {
            give_related(alloc, solver, problem, ground, index, (*left, *right), *set)
        }
        Articulation::Sum { whole, parts } => {
            give_sum(solver, problem, ground, index, *whole, parts.list())
        }
    }
}

// Gives a solver what all articulations say.
pub(crate) fn give_articulations(
    alloc: Global,
    solver: &mut Solver,
    problem: &Problem,
    ground: &Ground,
) -> Result<(), AllocError>
    requires few { variable_count ground.now + length problem.now.articulations < 2 ^ 31 }
    requires begun { IsBegunKept problem.now ground.now solver.old }
    ensures { OnOk result (IsBegunKept problem.now ground.now solver.new) }
{
    for index in 0..problem.articulation_count() {
        give_articulation(alloc, solver, problem, ground, index)?;
    }
    Ok(())
}

// The relations that one of two sets has.
fn either(one: RelSet, other: RelSet) -> RelSet {
    RelSet {
        equals: one.equals || other.equals,
        includes: one.includes || other.includes,
        included_in: one.included_in || other.included_in,
        overlaps: one.overlaps || other.overlaps,
        disjoint: one.disjoint || other.disjoint,
    }
}

// For each place the relations of which some articulation speaks, and all that the pair allows where it does not allow a whole set.
fn spoken_of(
    alloc: Global,
    problem: &Problem,
    base: &Problem,
    ground: &Ground,
) -> Result<Vec<RelSet>, AllocError>
    requires { IsGround base.now ground.now }
{
    let mut spoken = Vec::new(alloc);
    for pair in &ground.pairs {
        let allowed = base.allowed(*pair);
        spoken.push(if allowed.is_whole() {
            RelSet::none()
        } else {
            allowed
        })?;
    }
    for index in 0..problem.articulation_count() {
        if let Articulation::Pair { left, right, set } = problem.articulation(index) {
            if let Some(place) = place_of(ground, problem.pair_index(*left, *right)) {
                if let Some(said) = spoken.get_mut(place) {
                    *said = either(*said, *set);
                }
            }
        }
    }
    Ok(spoken)
}

// Gives a solver what these relations say.
pub(crate) fn give_spoken(
    alloc: Global,
    solver: &mut Solver,
    problem: &Problem,
    base: &Problem,
    ground: &Ground,
) -> Result<(), AllocError>
    requires ground { IsGround base.now ground.now }
    requires begun { IsBegun base.now ground.now solver.old }
    ensures begun { OnOk result (IsBegun base.now ground.now solver.new) }
    ensures exact { OnOk result (solver.new.variables ≡ solver.old.variables) }
{
    let spoken = spoken_of(alloc, problem, base, ground)?;
    for place in 0..ground.pairs.len() {
        let set = spoken.get(place).copied().unwrap_or(RelSet::all());
        give_place(alloc, solver, base, ground, place, set, true)?;
    }
    Ok(())
}
