//! What the solver is given: each pair has a relation that it allows, and no clash is picked.
ghost use Rattle.point_encode.specs.Model.Clauses.{is_so};
ghost use Rattle.lits_core.specs.Literals.{literal_of};
ghost use Rattle.pick_search.specs.Picking.{AreClashes, IsClash, ArePicksRuled, IsRule, ban_clause, pick_variable};
ghost use Rattle.rcc5_core.specs.RelationSet.{has};
ghost use Rattle.rcc5_core.specs.declared.Rel.{Rel};
ghost use Rattle.std.specs.Prelude.{All, Contains, IfNone, IfOk, IfSome, IsTrue, OnOk, [], length, ℕ, ◌*◌, ◌+◌, ◌<◌, ◌≡◌, ◌≤◌, ◌^◌};
ghost use Rattle.watch_arena.specs.Trails.{AreInRange};
ghost use Rattle.world_model.specs.Problem.{pair_count};
ghost use Rattle.world_model.specs.Questions.{IsMet};

use crate::picks::{Clash, Pick, rel_number};
use constraint_set::{MAX_PAIRS, Problem};
use learn_solver::{Answer, Solver};
use lits_core::{Bits, Lit, law_derived_clauses_follow, law_literals_are_sets};
use rcc5_core::{Rel, RelSet};
use std::alloc::{AllocError, Global};

// The literal that says that the pair at a place has a relation, or has it not.
fn pick_lit(place: usize, rel: Rel, negative: bool) -> Lit
    requires { place < MAX_PAIRS }
    ensures { result ≡ literal_of (pick_variable place rel) negative }
{
    Lit::new(5 * place as u32 + rel_number(rel), negative)
}

// Adds the literal of a relation that a set has.
fn push_if(lits: &mut Vec<Lit>, place: usize, set: RelSet, rel: Rel) -> Result<(), AllocError>
    requires { place < MAX_PAIRS }
    ensures there { OnOk result (IsTrue (has set rel) → Contains lits.new.items (is_so (pick_variable place rel))) }
    ensures stay { OnOk result ((lit : ℕ) → Contains lits.old.items lit → Contains lits.new.items lit) }
    ensures range { OnOk result (AreInRange lits.old.items (5 * place + 5) → AreInRange lits.new.items (5 * place + 5)) }
{
    if set.has(rel) {
        lits.push(pick_lit(place, rel, false))?;
    }
    Ok(())
}

// The clause that the pair at a place has a relation of a set.
fn rule(alloc: Global, place: usize, set: RelSet) -> Result<Vec<Lit>, AllocError>
    requires { place < MAX_PAIRS }
    ensures { IfOk result (λ lits. IsRule place set lits.items) }
{
    let mut lits = Vec::new(alloc);
    push_if(&mut lits, place, set, Rel::Equals)?;
    push_if(&mut lits, place, set, Rel::Includes)?;
    push_if(&mut lits, place, set, Rel::IncludedIn)?;
    push_if(&mut lits, place, set, Rel::Overlaps)?;
    push_if(&mut lits, place, set, Rel::Disjoint)?;
    Ok(lits)
}

// The clause that not all of some picks are made. None if there is a pick of no pair.
fn ban(alloc: Global, count: usize, picks: &[Pick]) -> Result<Option<Vec<Lit>>, AllocError>
    requires { count ≤ MAX_PAIRS }
    ensures clause { IfOk result (λ found. IfSome found (λ lits. lits.items ≡ ban_clause picks.now)) }
    ensures places { IfOk result (λ found. IfSome found (λ _. All (λ pick. pick.place < count) picks.now)) }
    ensures range { IfOk result (λ found. IfSome found (λ lits. AreInRange lits.items (5 * count))) }
{
    let mut lits = Vec::new(alloc);
    for pick in picks {
        if pick.place >= count {
            return Ok(None);
        }
        lits.push(pick_lit(pick.place, pick.rel, true))?;
    }
    Ok(Some(lits))
}

// Gives the solver that the pair at a place has a relation that it allows.
fn give_rule(
    alloc: Global,
    solver: &mut Solver,
    problem: &Problem,
    pairs: &[u32],
    place: usize,
) -> Result<(), AllocError>
    requires few { length pairs.now ≤ MAX_PAIRS }
    requires pairs { All (λ pair. pair < pair_count problem.now) pairs.now }
    requires place { place < length pairs.now }
    requires ready { ArePicksRuled problem.now pairs.now solver.old }
    ensures { OnOk result (ArePicksRuled problem.now pairs.now solver.new) }
{
    law_literals_are_sets();
    let lits = rule(alloc, place, problem.allowed(pairs[place]))?;
    solver.add(&lits)?;
    Ok(())
}

// Gives the solver that some picks clash.
fn give_ban(
    alloc: Global,
    solver: &mut Solver,
    problem: &Problem,
    pairs: &[u32],
    clash: &Clash,
) -> Result<(), AllocError>
    requires few { length pairs.now ≤ MAX_PAIRS }
    requires clash { IsClash problem.now pairs.now clash.now.picks.items }
    requires ready { ArePicksRuled problem.now pairs.now solver.old }
    ensures { OnOk result (ArePicksRuled problem.now pairs.now solver.new) }
{
    law_literals_are_sets();
    let found = ban(alloc, pairs.len(), &clash.picks)?;
    let Some(lits) = found else {
        return Ok(());
    };
    solver.add(&lits)?;
    Ok(())
}

// Gives the solver that each pair has a relation that it allows.
fn give_rules(
    alloc: Global,
    solver: &mut Solver,
    problem: &Problem,
    pairs: &[u32],
) -> Result<(), AllocError>
    requires few { length pairs.now ≤ MAX_PAIRS }
    requires pairs { All (λ pair. pair < pair_count problem.now) pairs.now }
    requires ready { ArePicksRuled problem.now pairs.now solver.old }
    ensures { OnOk result (ArePicksRuled problem.now pairs.now solver.new) }
{
    for place in 0..pairs.len() {
        give_rule(alloc, solver, problem, pairs, place)?;
    }
    Ok(())
}

// Gives the solver what clashes.
fn give_bans(
    alloc: Global,
    solver: &mut Solver,
    problem: &Problem,
    pairs: &[u32],
    clashes: &[Clash],
) -> Result<(), AllocError>
    requires few { length pairs.now ≤ MAX_PAIRS }
    requires clashes { AreClashes problem.now pairs.now clashes.now }
    requires ready { ArePicksRuled problem.now pairs.now solver.old }
    ensures { OnOk result (ArePicksRuled problem.now pairs.now solver.new) }
{
    for clash in clashes {
        give_ban(alloc, solver, problem, pairs, clash)?;
    }
    Ok(())
}

// The first relation of a set that bits have for the pair at a place.
fn read_one(bits: &Bits, place: usize, set: RelSet) -> Option<Rel> {
    let mut next = set.first();
    for _rel in 0..5 {
        let rel = next?;
        let at = place
            .saturating_mul(5)
            .saturating_add(rel_number(rel) as usize);
        if at < bits.len() && bits.get(at) {
            return Some(rel);
        }
        next = set.after(rel);
    }
    None
}

// The picks that bits are.
fn read(
    alloc: Global,
    problem: &Problem,
    pairs: &[u32],
    bits: &Bits,
) -> Result<Vec<Pick>, AllocError>
    requires { All (λ pair. pair < pair_count problem.now) pairs.now }
{
    let mut picks = Vec::new(alloc);
    for place in 0..pairs.len() {
        if let Some(rel) = read_one(bits, place, problem.allowed(pairs[place])) {
            picks.push(Pick { place, rel })?;
        }
    }
    Ok(picks)
}

// Picks, of which none clash, or none where no family meets the problem.
pub(crate) fn next_picks(
    alloc: Global,
    problem: &Problem,
    pairs: &[u32],
    known: &[Clash],
    own: &[Clash],
) -> Result<Option<Vec<Pick>>, AllocError>
    requires few { length pairs.now ≤ MAX_PAIRS }
    requires pairs { All (λ pair. pair < pair_count problem.now) pairs.now }
    requires known { AreClashes problem.now pairs.now known.now }
    requires own { AreClashes problem.now pairs.now own.now }
    ensures none { IfOk result (λ found. IfNone found (IsMet problem.now → ⊥)) }
{
    law_literals_are_sets();
    law_derived_clauses_follow();
    let mut solver = Solver::new(alloc, 5 * pairs.len() as u32)?;
    give_rules(alloc, &mut solver, problem, pairs)?;
    give_bans(alloc, &mut solver, problem, pairs, known)?;
    give_bans(alloc, &mut solver, problem, pairs, own)?;
    let answer = solver.solve(&[], &[])?;
    match answer {
        Answer::Refuted(_id) => Ok(None),
        Answer::Bits(bits) => {
            let picks = read(alloc, problem, pairs, &bits)?;
            Ok(Some(picks))
        }
    }
}
