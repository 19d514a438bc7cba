//! The clauses on regions that have a point.
ghost use Rattle.point_encode.specs.Model.Clauses.{is_so};
ghost use Rattle.family_solver.specs.Showing.{HasPoints, IsBegun, IsGround, IsSo, IsSoOrSeen, variable_count};
ghost use Rattle.rcc5_core.specs.Region.{same_word};
ghost use Rattle.rcc5_core.specs.declared.Occupancy.TheVariants.{Empty, Occupied};
ghost use Rattle.std.specs.Prelude.{Contains, IsTrue, OnOk, length, ℕ, ◌<◌, ◌^◌, ◌≡◌, ◌≤◌};
ghost use Rattle.watch_arena.specs.Trails.{AreInRange};
ghost use Rattle.world_model.specs.Alive.{bit_of, lies_in, point_at};
ghost use Rattle.world_model.specs.Problem.{concept_count, pair_count};

use crate::ground::Ground;
use constraint_set::Problem;
use learn_solver::Solver;
use lits_core::{Bits, Lit, law_literals_are_sets};
use rcc5_core::{Occupancy, Region, forced};
use std::alloc::{AllocError, Global};
use world_model::trial_is_right;

/// The regions of a pair.
pub(crate) const REGIONS: [Region; 3] = [Region::LeftOnly, Region::Both, Region::RightOnly];

/// Whether a point lies in a concept.
pub fn has_concept(point: &Bits, concept: u32) -> bool
    ensures { result ≡ bit_of point.now concept }
{
    (concept as usize) < point.len() && point.get(concept as usize)
}

// Whether a point lies in a region of two concepts.
pub(crate) fn lies(point: &Bits, pair: (u32, u32), region: Region) -> bool
    ensures { result ≡ lies_in region pair point.now }
{
    let left = has_concept(point, pair.0);
    let right = has_concept(point, pair.1);
    match region {
        Region::LeftOnly => left && !right,
        Region::Both => left && right,
        Region::RightOnly => !left && right,
    }
}

// Whether a word is that a region has an element.
pub(crate) fn is_occupied(word: Occupancy) -> bool
    ensures { result ≡ same_word word Occupied }
{
    word == Occupancy::Occupied
}

// Whether a word is that a region has none.
pub(crate) fn is_empty(word: Occupancy) -> bool
    ensures { result ≡ same_word word Empty }
{
    word == Occupancy::Empty
}

// Adds the literal of a point if it lies in a region.
fn push_if(
    lits: &mut Vec<Lit>,
    points: &[Bits],
    place: usize,
    pair: (u32, u32),
    region: Region,
) -> Result<(), AllocError>
    requires few { length points.now < 2 ^ 31 }
    requires place { place < length points.now }
    ensures there { OnOk result (IsTrue (lies_in region pair (point_at points.now place)) → Contains lits.new.items (is_so place)) }
    ensures stay { OnOk result ((lit : ℕ) → Contains lits.old.items lit → Contains lits.new.items lit) }
    ensures range { OnOk result ((count : ℕ) → length points.now ≤ count → AreInRange lits.old.items count → AreInRange lits.new.items count) }
{
    if lies(&points[place], pair, region) {
        lits.push(Lit::new(place as u32, false))?;
    }
    Ok(())
}

// Adds the literals of all points in a region.
fn push_points(
    lits: &mut Vec<Lit>,
    points: &[Bits],
    pair: (u32, u32),
    region: Region,
) -> Result<(), AllocError>
    requires few { length points.now < 2 ^ 31 }
    ensures there { OnOk result (HasPoints points.now (length points.now) pair region lits.new.items) }
    ensures stay { OnOk result ((lit : ℕ) → Contains lits.old.items lit → Contains lits.new.items lit) }
    ensures range { OnOk result ((count : ℕ) → length points.now ≤ count → AreInRange lits.old.items count → AreInRange lits.new.items count) }
{
    for place in 0..points.len() {
        push_if(lits, points, place, pair, region)?;
    }
    Ok(())
}

// Gives a solver a clause that is so.
pub(crate) fn give(
    solver: &mut Solver,
    problem: &Problem,
    ground: &Ground,
    lits: &[Lit],
) -> Result<(), AllocError>
    requires range { AreInRange lits.now (variable_count ground.now) }
    requires so { IsSo problem.now ground.now lits.now }
    requires begun { IsBegun problem.now ground.now solver.old }
    ensures begun { OnOk result (IsBegun problem.now ground.now solver.new) }
    ensures exact { OnOk result (solver.new.variables ≡ solver.old.variables) }
{
    law_literals_are_sets();
    solver.add(lits)?;
    Ok(())
}

// Gives a solver that a region has a point, or else one of some literals is so.
pub(crate) fn give_region(
    solver: &mut Solver,
    problem: &Problem,
    ground: &Ground,
    lits: Vec<Lit>,
    pair: (u32, u32),
    region: Region,
) -> Result<(), AllocError>
    requires ground { IsGround problem.now ground.now }
    requires range { AreInRange lits.items (variable_count ground.now) }
    requires so { IsSoOrSeen problem.now ground.now lits.items pair region }
    requires begun { IsBegun problem.now ground.now solver.old }
    ensures begun { OnOk result (IsBegun problem.now ground.now solver.new) }
    ensures exact { OnOk result (solver.new.variables ≡ solver.old.variables) }
{
    trial_is_right();
    let mut lits = lits;
    push_points(&mut lits, &ground.points, pair, region)?;
    give(solver, problem, ground, &lits)
}

// Gives a solver that a concept has a point, where each has one.
fn give_concept(
    alloc: Global,
    solver: &mut Solver,
    problem: &Problem,
    ground: &Ground,
    concept: u32,
) -> Result<(), AllocError>
    requires ground { IsGround problem.now ground.now }
    requires concept { concept < concept_count problem.now }
    requires begun { IsBegun problem.now ground.now solver.old }
    ensures begun { OnOk result (IsBegun problem.now ground.now solver.new) }
    ensures exact { OnOk result (solver.new.variables ≡ solver.old.variables) }
{
    if problem.switches().nonempty {
        let lits = Vec::new(alloc);
        return give_region(
            solver,
            problem,
            ground,
            lits,
            (concept, concept),
            Region::Both,
        );
    }
    Ok(())
}

// Gives a solver that a region of a pair has a point, if what the pair allows forces that.
fn give_forced(
    alloc: Global,
    solver: &mut Solver,
    problem: &Problem,
    ground: &Ground,
    pair: u32,
    region: Region,
) -> Result<(), AllocError>
    requires ground { IsGround problem.now ground.now }
    requires pair { pair < pair_count problem.now }
    requires begun { IsBegun problem.now ground.now solver.old }
    ensures begun { OnOk result (IsBegun problem.now ground.now solver.new) }
    ensures exact { OnOk result (solver.new.variables ≡ solver.old.variables) }
{
    if is_occupied(forced(problem.allowed(pair)).at(region)) {
        let lits = Vec::new(alloc);
        return give_region(solver, problem, ground, lits, problem.pair_at(pair), region);
    }
    Ok(())
}

// Gives a solver what the regions of a pair need.
fn give_pair(
    alloc: Global,
    solver: &mut Solver,
    problem: &Problem,
    ground: &Ground,
    pair: u32,
) -> Result<(), AllocError>
    requires ground { IsGround problem.now ground.now }
    requires pair { pair < pair_count problem.now }
    requires begun { IsBegun problem.now ground.now solver.old }
    ensures begun { OnOk result (IsBegun problem.now ground.now solver.new) }
    ensures exact { OnOk result (solver.new.variables ≡ solver.old.variables) }
{
    'regions: for region in REGIONS {
        give_forced(alloc, solver, problem, ground, pair, region)?;
    }
    Ok(())
}

// Gives a solver all needs.
pub(crate) fn give_needs(
    alloc: Global,
    solver: &mut Solver,
    problem: &Problem,
    ground: &Ground,
) -> Result<(), AllocError>
    requires ground { IsGround problem.now ground.now }
    requires begun { IsBegun problem.now ground.now solver.old }
    ensures begun { OnOk result (IsBegun problem.now ground.now solver.new) }
    ensures exact { OnOk result (solver.new.variables ≡ solver.old.variables) }
{
    for concept in 0..problem.concept_count() {
        give_concept(alloc, solver, problem, ground, concept)?;
    }
    for pair in 0..problem.pair_count() {
        give_pair(alloc, solver, problem, ground, pair)?;
    }
    Ok(())
}
