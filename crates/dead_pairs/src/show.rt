//! Clauses that show that a need has no point where a pair is narrowed.
ghost use Rattle.std.specs.Prelude.{◌≡◌, ◌<◌};
ghost use Rattle.world_model.specs.Problem.{pair_count};
ghost use Rattle.constraint_set.specs.Shape.{shape_of};
ghost use Rattle.point_encode.specs.Needs.{IsInRange};
ghost use Rattle.point_query.specs.Asking.{AskerGoes};

use crate::hints::{Hints, Lost, Table};
use crate::literals::{lits_of, need_of_both};
use crate::lone::Lone;
use constraint_set::Problem;
use lits_core::Lit;
use point_encode::{Need, need_lits, need_of, word_of};
use point_query::{Asker, Found};
use rcc5_core::{Occupancy, Position};
use std::alloc::{AllocError, Global};

/// A clause that is to be shown: its literals, and the ids of the clauses that show it.
#[derive(Drop)]
struct Draft {
    lits: Vec<Lit>,
    hints: Vec<u64>,
}

impl Draft {
    // Adds a literal, once.
    fn add(&mut self, lit: Lit) -> Result<(), AllocError> {
        if !self.lits.iter().any(|other| *other == lit) {
            self.lits.push(lit)?;
        }
        Ok(())
    }

    // Takes a clause with all its literals but one, which it shows to be true.
    fn take(&mut self, asker: &Asker, id: u64, shown: Lit) -> Result<(), AllocError> {
        if let Some(lits) = asker.clause(id) {
            for place in 0..lits.count() {
                let lit = lits.lit(place);
                if lit != shown {
                    self.add(lit)?;
                }
            }
        }
        self.hints.push(id)?;
        Ok(())
    }
}

// The clause that shows that a need of the problem has no point, if it has none.
#[tactic(auto, using(search_log::proofs::Logs::asker_stays))]
pub(crate) fn asked(
    problem: &Problem,
    asker: &mut Asker,
    alloc: Global,
    number: u64,
) -> Result<Option<u64>, AllocError>
    requires shape { asker.old.shape ≡ shape_of problem.now }
    ensures kept { AskerGoes asker.old asker.new }
{
    let Some(need) = need_of(problem, number) else {
        return Ok(None);
    };
    let root = Position::new(alloc);
    match asker.ask(problem, &root, need)? {
        Found::Point(_) => Ok(None),
        Found::Closed(id) => Ok(Some(id)),
    }
}

// A clause that shows a literal to be true of all points of a need, whose literals are these.
#[tactic(auto, using(search_log::proofs::Logs::asker_stays, search_log::proofs::Logs::asker_joins))]
fn reason_for(
    problem: &Problem,
    asker: &mut Asker,
    alloc: Global,
    table: &Table,
    of_need: &[Option<Lit>; 2],
    lit: Lit,
) -> Result<Option<u64>, AllocError>
    requires shape { asker.old.shape ≡ shape_of problem.now }
    ensures kept { AskerGoes asker.old asker.new }
{
    for one in of_need {
        if let Some(one) = one {
            if let Some(number) = need_of_both(problem, *one, lit.negate()) {
                if table.is_empty(problem, number) {
                    return asked(problem, asker, alloc, number);
                }
            }
        }
    }
    Ok(None)
}

// Adds why a literal is true of all points of a need.
#[tactic(auto, using(search_log::proofs::Logs::asker_stays, search_log::proofs::Logs::asker_joins))]
fn add_reason(
    problem: &Problem,
    asker: &mut Asker,
    alloc: Global,
    table: &Table,
    of_need: &[Option<Lit>; 2],
    lit: Lit,
    draft: &mut Draft,
) -> Result<bool, AllocError>
    requires shape { asker.old.shape ≡ shape_of problem.now }
    ensures kept { AskerGoes asker.old asker.new }
{
    if of_need.iter().any(|one| *one == Some(lit)) {
        draft.add(lit.negate())?;
        return Ok(true);
    }
    match reason_for(problem, asker, alloc, table, of_need, lit)? {
        Some(id) => {
            draft.take(asker, id, lit)?;
            Ok(true)
        }
        None => Ok(false),
    }
}

// A clause that shows that a need has no point, if a region of the pair has all its points, and is empty by the narrowing.
#[tactic(auto, using(search_log::proofs::Logs::asker_stays, search_log::proofs::Logs::asker_joins))]
fn shown_by(
    problem: &Problem,
    asker: &mut Asker,
    hints: &Hints,
    table: &Table,
    lone: Lone,
    need: Need,
    place: usize,
    part: u32,
) -> Result<Option<u64>, AllocError>
    requires shape { asker.old.shape ≡ shape_of problem.now }
    requires lone { lone.pair < pair_count problem.now }
    requires range { IsInRange problem.now need }
    requires part { part < 3 }
    ensures kept { AskerGoes asker.old asker.new }
{
    let (left, right) = problem.pair_at(lone.pair);
    problem.facts();
    let [one, other] = lits_of(left, right, part);
    if !(table.implies(place, one) && table.implies(place, other)) {
        return Ok(None);
    }
    let of_need = need_lits(problem, need);
    let mut draft = Draft {
        lits: Vec::new(hints.alloc),
        hints: Vec::new(hints.alloc),
    };
    if !add_reason(
        problem,
        asker,
        hints.alloc,
        table,
        &of_need,
        one,
        &mut draft,
    )? {
        return Ok(None);
    }
    if !add_reason(
        problem,
        asker,
        hints.alloc,
        table,
        &of_need,
        other,
        &mut draft,
    )? {
        return Ok(None);
    }
    let region = 3 * lone.pair + part;
    draft.add(Lit::new(problem.concept_count() + region, true))?;
    draft
        .hints
        .push(hints.first.saturating_add(u64::from(region)))?;
    asker.derive(&draft.lits, &draft.hints)
}

/// A clause that shows that a need has no point where a pair is narrowed, by one of the regions that are empty then.
#[tactic(auto, using(search_log::proofs::Logs::asker_stays, search_log::proofs::Logs::asker_joins))]
pub(crate) fn shown(
    problem: &Problem,
    asker: &mut Asker,
    hints: &Hints,
    table: &Table,
    lone: Lone,
    lost: Lost,
) -> Result<Option<u64>, AllocError>
    requires shape { asker.old.shape ≡ shape_of problem.now }
    requires lone { lone.pair < pair_count problem.now }
    ensures kept { AskerGoes asker.old asker.new }
{
    let Some(need) = need_of(problem, lost.number) else {
        return Ok(None);
    };
    let Some(place) = lost.place else {
        return asked(problem, asker, hints.alloc, lost.number);
    };
    for part in 0..3 {
        if word_of(lone.rel.row(), part) == Occupancy::Empty {
            let id = shown_by(problem, asker, hints, table, lone, need, place, part)?;
            if id.is_some() {
                return Ok(id);
            }
        }
    }
    Ok(None)
}
