//! The solver, and what it is asked.
ghost use Rattle.family_solver.specs.Showing.{AreAssumed, IsFamilySolver, IsFound, IsGranted, IsGround, IsHopeless, variable_count};
ghost use Rattle.learn_solver.specs.Solving.{AreConsistent};
ghost use Rattle.std.specs.Prelude.{IfNone, IfOk, OnOk, length, ◌<◌};
ghost use Rattle.watch_arena.specs.Trails.{AreInRange};

use crate::begun::begin;
use crate::clauses::{REGIONS, is_empty, lies};
use crate::family::met_by;
use crate::ground::Ground;
use crate::relations::{give_places, rel_lit};
use constraint_set::Problem;
use learn_solver::{Answer, Solver};
use lits_core::{Bits, Lit, law_derived_clauses_follow, law_literals_are_sets};
use rcc5_core::{Region, Rel};
use set_family::Family;
use std::alloc::{AllocError, Global};
use world_model::pairs_stand_once;

/// What is answered.
#[derive(Drop)]
pub enum Grant {
    /// This family meets the problem, and shows the relation that was asked for.
    Met(Family),
    /// No family does.
    Refuted,
    /// The solver can't say.
    Unclear,
}

/// What each family that meets a problem makes true, as clauses.
#[derive(Drop)]
pub struct FamilySolver {
    pub(crate) solver: Solver,
}

// Adds the literal that a point is not there, if it lies in a region that is empty by a relation of the pair at a place.
fn push_barred(
    lits: &mut Vec<Lit>,
    problem: &Problem,
    ground: &Ground,
    place: usize,
    rel: Rel,
    region: Region,
    point: usize,
) -> Result<(), AllocError>
    requires ground { IsGround problem.now ground.now }
    requires place { place < length ground.now.pairs.items }
    requires point { point < length ground.now.points.items }
    requires assumed { AreAssumed problem.now ground.now place rel lits.old.items }
    ensures { OnOk result (AreAssumed problem.now ground.now place rel lits.new.items) }
{
    let pair = problem.pair_at(ground.pairs[place]);
    if is_empty(rel.row().at(region)) && lies(&ground.points[point], pair, region) {
        lits.push(Lit::new(point as u32, true))?;
    }
    Ok(())
}

// Adds that for all points.
fn push_all_barred(
    lits: &mut Vec<Lit>,
    problem: &Problem,
    ground: &Ground,
    place: usize,
    rel: Rel,
    region: Region,
) -> Result<(), AllocError>
    requires ground { IsGround problem.now ground.now }
    requires place { place < length ground.now.pairs.items }
    requires assumed { AreAssumed problem.now ground.now place rel lits.old.items }
    ensures { OnOk result (AreAssumed problem.now ground.now place rel lits.new.items) }
{
    for point in 0..ground.points.len() {
        push_barred(lits, problem, ground, place, rel, region, point)?;
    }
    Ok(())
}

// What is assumed for a relation of the pair at a place.
fn assumed(
    alloc: Global,
    problem: &Problem,
    ground: &Ground,
    place: usize,
    rel: Rel,
) -> Result<Vec<Lit>, AllocError>
    requires ground { IsGround problem.now ground.now }
    requires place { place < length ground.now.pairs.items }
    ensures { IfOk result (λ lits. AreAssumed problem.now ground.now place rel lits.items) }
{
    let mut lits = Vec::new(alloc);
    lits.push(rel_lit(ground, place, rel, false))?;
    'regions: for region in REGIONS {
        push_all_barred(&mut lits, problem, ground, place, rel, region)?;
    }
    Ok(lits)
}

impl FamilySolver {
    /// A solver for a problem.
    pub fn new(
        alloc: Global,
        problem: &Problem,
        ground: &Ground,
    ) -> Result<FamilySolver, AllocError>
        requires ground { IsGround problem.now ground.now }
        ensures { IfOk result (IsFamilySolver problem.now ground.now) }
    {
        let mut solver = begin(alloc, problem, ground, 0)?;
        give_places(alloc, &mut solver, problem, ground)?;
        Ok(FamilySolver { solver })
    }

    // Bits that meet all clauses and some literals.
    fn solve(
        &mut self,
        problem: &Problem,
        ground: &Ground,
        lits: &[Lit],
    ) -> Result<Option<Bits>, AllocError>
        requires range { AreInRange lits.now (variable_count ground.now) }
        requires consistent { AreConsistent lits.now }
        requires solver { IsFamilySolver problem.now ground.now self.old }
        ensures solver { IsFamilySolver problem.now ground.now self.new }
        ensures none { IfOk result (λ found. IfNone found (IsHopeless problem.now ground.now lits.now)) }
    {
        law_literals_are_sets();
        law_derived_clauses_follow();
        self.solver.clear_lines();
        match self.solver.solve(&[], lits)? {
            Answer::Refuted(_id) => Ok(None),
            Answer::Bits(bits) => Ok(Some(bits)),
        }
    }

    /// Whether some family meets the problem.
    pub fn any(
        &mut self,
        alloc: Global,
        problem: &Problem,
        ground: &Ground,
    ) -> Result<Grant, AllocError>
        requires solver { IsFamilySolver problem.now ground.now self.old }
        ensures solver { IsFamilySolver problem.now ground.now self.new }
        ensures answer { IfOk result (IsFound problem.now) }
    {
        let found = self.solve(problem, ground, &[])?;
        let Some(bits) = found else {
            return Ok(Grant::Refuted);
        };
        match met_by(alloc, problem, ground, &bits)? {
            Some(family) => Ok(Grant::Met(family)),
            None => Ok(Grant::Unclear),
        }
    }

    /// Whether some family meets the problem and has a relation at the pair at a place.
    pub fn ask(
        &mut self,
        alloc: Global,
        problem: &Problem,
        ground: &Ground,
        place: usize,
        rel: Rel,
    ) -> Result<Grant, AllocError>
        requires ground { IsGround problem.now ground.now }
        requires place { place < length ground.now.pairs.items }
        requires solver { IsFamilySolver problem.now ground.now self.old }
        ensures solver { IsFamilySolver problem.now ground.now self.new }
        ensures answer { IfOk result (IsGranted problem.now ground.now.pairs.items place rel) }
    {
        pairs_stand_once();
        let lits = assumed(alloc, problem, ground, place, rel)?;
        let found = self.solve(problem, ground, &lits)?;
        let Some(bits) = found else {
            return Ok(Grant::Refuted);
        };
        granted(alloc, problem, ground, &bits, place, rel)
    }
}

// What bits grant, if anything.
fn granted(
    alloc: Global,
    problem: &Problem,
    ground: &Ground,
    bits: &Bits,
    place: usize,
    rel: Rel,
) -> Result<Grant, AllocError>
    requires ground { IsGround problem.now ground.now }
    requires place { place < length ground.now.pairs.items }
    ensures { IfOk result (IsGranted problem.now ground.now.pairs.items place rel) }
{
    let found = met_by(alloc, problem, ground, bits)?;
    let Some(family) = found else {
        return Ok(Grant::Unclear);
    };
    let (left, right) = problem.pair_at(ground.pairs[place]);
    if family.relation(left, right) != rel {
        return Ok(Grant::Unclear);
    }
    Ok(Grant::Met(family))
}
