//! The solver, and what it is asked.
ghost use Rattle.family_solver.specs.Showing.{variable_count};
ghost use Rattle.family_solver.specs.Kept.Keeping.{AreAssumed, IsKeptSolver, IsVerdict};
ghost use Rattle.learn_solver.specs.Answers.{IsAnswer};
ghost use Rattle.learn_solver.specs.Solving.{AreConsistent, IsRefutation};
ghost use Rattle.std.specs.Prelude.{IfOk, IfSome, length, ◌+◌, ◌≡◌};
ghost use Rattle.watch_arena.specs.Trails.{AreInRange};
ghost use Rattle.world_model.specs.Questions.{HasFlags};

use crate::kept::clauses::{give_articulations, give_spoken};
use crate::kept::flags::{assumed, core_of};
use crate::kept::ground::{bare, few_points};
use crate::{Ground, begin, met_by};
use constraint_set::Problem;
use learn_solver::{Answer, Solver};
use lits_core::{Bits, Lit, law_derived_clauses_follow, law_literals_are_sets};
use set_family::Family;
use std::alloc::{AllocError, Global};

/// What is answered of flags, one for each articulation.
#[derive(Drop)]
pub enum Verdict {
    /// This family meets the problem with just these articulations kept.
    Met(Family),
    /// No family does: those with these flags, which are some of them, are in conflict already.
    Clash(Vec<bool>),
    /// The solver can't say.
    Unclear,
}

/// Clauses that each family makes true which meets a problem with some articulations kept: over the points that the problem has
/// where none is, with a variable for each articulation that says whether it is kept.
#[derive(Drop)]
pub struct KeptSolver {
    pub(crate) ground: Ground,
    pub(crate) solver: Solver,
}

// Where more learnt clauses than these are idle, they are forgotten before a question.
const MOST_IDLE: u64 = 500;

impl KeptSolver {
    /// A solver for a problem, if its points are few. Which articulations the problem keeps itself doesn't matter.
    pub fn new(alloc: Global, problem: &Problem) -> Result<Option<KeptSolver>, AllocError>
        ensures { IfOk result (λ found. IfSome found (IsKeptSolver problem.now)) }
    {
        let base = bare(alloc, problem)?;
        let Some(ground) = few_points(alloc, &base)? else {
            return Ok(None);
        };
        let more = problem.articulation_count();
        let mut solver = begin(alloc, &base, &ground, more)?;
        give_spoken(alloc, &mut solver, problem, &base, &ground)?;
        give_articulations(alloc, &mut solver, problem, &ground)?;
        Ok(Some(KeptSolver { ground, solver }))
    }

    // Forgets what was learnt where that is much, since each clause takes time at every step.
    fn forget(&mut self, problem: &Problem) -> Result<(), AllocError>
        requires { IsKeptSolver problem.now self.old }
        ensures solver { IsKeptSolver problem.now self.new }
        ensures ground { self.new.ground ≡ self.old.ground }
    {
        law_literals_are_sets();
        law_derived_clauses_follow();
        if self.solver.has_more_idle(MOST_IDLE) {
            self.solver.tidy()?;
        }
        Ok(())
    }

    // Bits that meet all clauses and some literals, or the clause that shows that there are none.
    fn solve(&mut self, problem: &Problem, lits: &[Lit]) -> Result<Answer, AllocError>
        requires range { AreInRange lits.now (variable_count self.old.ground + length problem.now.articulations) }
        requires consistent { AreConsistent lits.now }
        requires solver { IsKeptSolver problem.now self.old }
        ensures solver { IsKeptSolver problem.now self.new }
        ensures ground { self.new.ground ≡ self.old.ground }
        ensures answer { IfOk result (IsAnswer self.new.solver lits.now) }
    {
        law_literals_are_sets();
        law_derived_clauses_follow();
        self.forget(problem)?;
        self.solver.clear_lines();
        self.solver.solve(&[], lits)
    }

    // The articulations that a clause shows in conflict.
    fn clash(
        &self,
        alloc: Global,
        problem: &Problem,
        kept: &[bool],
        lits: &[Lit],
        id: u64,
    ) -> Result<Verdict, AllocError>
        requires flags { HasFlags problem.now kept.now }
        requires assumed { AreAssumed self.now.ground kept.now lits.now }
        requires refutation { IsRefutation self.now.solver lits.now id }
        requires solver { IsKeptSolver problem.now self.now }
        ensures { IfOk result (IsVerdict problem.now kept.now) }
    {
        self.solver.facts();
        let Some(clause) = self.solver.clause(id) else {
            return Ok(Verdict::Unclear);
        };
        let core = core_of(alloc, &self.ground, kept, &clause)?;
        Ok(Verdict::Clash(core))
    }

    /// Whether a family meets the problem with just the articulations kept that these flags say. What the solver learns serves
    /// further questions.
    pub fn ask(
        &mut self,
        alloc: Global,
        problem: &Problem,
        kept: &[bool],
    ) -> Result<Verdict, AllocError>
        requires solver { IsKeptSolver problem.now self.old }
        requires flags { HasFlags problem.now kept.now }
        ensures solver { IsKeptSolver problem.now self.new }
        ensures answer { IfOk result (IsVerdict problem.now kept.now) }
    {
        let lits = assumed(alloc, &self.ground, kept)?;
        match self.solve(problem, &lits)? {
            Answer::Bits(bits) => met(alloc, problem, &self.ground, kept, &bits),
            Answer::Refuted(id) => self.clash(alloc, problem, kept, &lits, id),
        }
    }
}

// The family of the points that bits have, if it meets the problem with these articulations kept.
fn met(
    alloc: Global,
    problem: &Problem,
    ground: &Ground,
    kept: &[bool],
    bits: &Bits,
) -> Result<Verdict, AllocError>
    requires { HasFlags problem.now kept.now }
    ensures { IfOk result (IsVerdict problem.now kept.now) }
{
    let part = problem.restricted(alloc, kept)?;
    match met_by(alloc, &part, ground, bits)? {
        Some(family) => Ok(Verdict::Met(family)),
        None => Ok(Verdict::Unclear),
    }
}
