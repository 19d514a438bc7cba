//! Checks a derivation line by line.
#![tactic(auto)]

mod clauses;
mod entries;
mod held;
mod hint;
mod places;

ghost use Rattle.std.specs.Prelude.{◌≡◌, ℕ, Bool, List, [], IfOk, IfSome, OnOk, OnErr, IsTrue, option_copied};
ghost use Rattle.lits_core.specs.Literals.{meets_all, clause_true};
ghost use Rattle.lits_core.specs.Derivation.{first_state, line_fault, next_state, live_clause, hints_fault, has_distinct_ids};
ghost use Rattle.proof_check.specs.Check.{Gives};

use clauses::Clauses;
use held::Held;
use hint::hint_of;
pub use lits_core::LineFault;
use lits_core::{Clause, Hint, Line, Lit};
use std::alloc::{AllocError, Global};
use std::cmp::{max, min};
use std::marker::Model;

/// The live clauses of a derivation, seen as its state.
#[derive(Drop)]
pub struct Book {
    alloc: Global,
    clauses: Clauses,
    held: Held,
}

impl Model for Book {
    ghost use Rattle.std.specs.Prelude.{◌≡◌, []};
    ghost use Rattle.lits_core.specs.Derivation.{State};
    ghost use Rattle.proof_check.specs.Check.{IsSound};

    ghost Value = { State };

    ghost view = { λ book. book.clauses };

    ghost invariant = { λ book. IsSound book.clauses × (book.held ≡ []) };
}

impl Book {
    /// A book in which nothing is derived yet. The given clauses have the ids 1, 2 and so on.
    pub fn new(alloc: Global, given: Vec<Clause>) -> Result<Self, AllocError>
        ensures { IfOk result (λ book. book ≡ first_state given.items) }
    {
        let held = Held::new(alloc, table_len(&given))?;
        let clauses = Clauses::new(alloc, given);
        Ok(Book {
            alloc,
            clauses,
            held,
        })
    }

    /// Takes a line in, or refuses it with the first fault. A derive line has `IdUsed` where a live clause has its id,
    /// `UnknownHint` at a hint that is the id of no live clause, `HintNotUnit` at a hint whose clause leaves two
    /// literals open, and `NoConflict` where the hints end with no conflict. A forget line has `UnknownHint` at an id
    /// of no derived clause that is left. `NoMemory` is want of memory.
    ///
    /// The rule is reverse unit propagation, as in the LRAT format of proofs, but that ids need not grow.
    pub fn add_line(&mut self, line: &Line) -> Result<(), LineFault>
        ensures fault { Gives (line_fault self.old line.now) result }
        ensures next { OnOk result (self.new ≡ next_state self.old line.now) }
        ensures unchanged { OnErr result (self.new ≡ self.old) }
    {
        match line {
            Line::Derive { id, lits, hints } => self.derive(*id, lits.lits(), hints.list()),
            Line::Forget { ids } => self.forget(ids.list()),
        }
    }

    /// Forgets all that was derived, and takes no memory.
    pub fn restart(&mut self)
        ensures { self.new ≡ first_state self.old.given }
    {
        self.clauses.restart();
    }

    /// The live clause with an id.
    pub fn live(&self, id: u64) -> Option<&[Lit]>
        ensures value { option_copied result ≡ live_clause self.now id }
        ensures follows { IfSome result (λ lits. (bits : List Bool) → IsTrue (meets_all bits self.now.given) → IsTrue (clause_true bits lits.now)) }
        ensures distinct { IsTrue (has_distinct_ids self.now) }
    {
        self.clauses.find(id)
    }
}

impl Book {
    fn derive(&mut self, id: u64, lits: &[Lit], hints: &[u64]) -> Result<(), LineFault>
        ensures fault { Gives (line_fault self.old (Line.Derive id lits.now hints.now)) result }
        ensures next { OnOk result (self.new ≡ next_state self.old (Line.Derive id lits.now hints.now)) }
        ensures unchanged { OnErr result (self.new ≡ self.old) }
    {
        if self.clauses.find(id).is_some() {
            return Err(LineFault::IdUsed);
        }
        self.check(lits, hints)?;
        let clause = Clause::from_lits(self.alloc, lits)?;
        self.clauses.push(id, clause)?;
        Ok(())
    }

    fn forget(&mut self, ids: &[u64]) -> Result<(), LineFault>
        ensures fault { Gives (line_fault self.old (Line.Forget ids.now)) result }
        ensures next { OnOk result (self.new ≡ next_state self.old (Line.Forget ids.now)) }
        ensures unchanged { OnErr result (self.new ≡ self.old) }
    {
        self.clauses.forget(self.alloc, ids)
    }

    fn check(&mut self, lits: &[Lit], hints: &[u64]) -> Result<(), LineFault>
        ensures fault { Gives (hints_fault self.old hints.now lits.now) result }
        ensures unchanged { self.new ≡ self.old }
    {
        let outcome = follow(&self.clauses, &mut self.held, lits, hints);
        self.held.clear();
        outcome
    }
}

/// How many codes get a mark in a table: up to the greatest one in the clauses, but no more than twice as many as they
/// have literals, so that a stray great one takes no memory.
fn table_len(clauses: &[Clause]) -> usize {
    let mut codes = 0;
    let mut count = 0usize;
    for clause in clauses {
        for lit in clause.lits() {
            codes = max(codes, lit.code() as usize + 1);
            count = count.saturating_add(2);
        }
    }
    min(codes, count)
}

/// Takes the hints in turn, with the literals of a clause held false.
fn follow(clauses: &Clauses, held: &mut Held, lits: &[Lit], hints: &[u64]) -> Result<(), LineFault>
    requires { held.old ≡ [] }
    ensures { Gives (hints_fault clauses.now hints.now lits.now) result }
{
    held.hold_all(lits)?;
    follow_hints(clauses, held, hints)
}

fn follow_hints(clauses: &Clauses, held: &mut Held, hints: &[u64]) -> Result<(), LineFault>
    ensures { Gives (hints_fault clauses.now hints.now held.old) result }
{
    for hint in hints {
        let Some(lits) = clauses.find(*hint) else {
            return Err(LineFault::UnknownHint);
        };
        match hint_of(held, lits) {
            Hint::Falsified => return Ok(()),
            Hint::Implies(lit) => held.hold(lit.negate())?,
            Hint::NotUnit => return Err(LineFault::HintNotUnit),
        }
    }
    Err(LineFault::NoConflict)
}
