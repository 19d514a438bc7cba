//! Which clauses closed needs at dead nodes, to be tried again at others.
ghost use Rattle.std.specs.Prelude.{◌≡◌, ◌≤◌, length, IfOk, IfSome, IsTrue};
ghost use Rattle.world_model.specs.Problem.{pair_count};
ghost use Rattle.constraint_set.specs.Shape.{shape_of};
ghost use Rattle.point_encode.specs.Needs.{IsInRange};
ghost use Rattle.point_query.specs.Asking.{AskerGoes};
ghost use Rattle.dead_nodes.specs.Why.{Closes};

use crate::closes::{closes, may_close};
use crate::lemmas::{Hint, Lemmas};
use crate::near::Given;
use constraint_set::Problem;
use lits_core::Lit;
use point_encode::{Need, is_forced, need_number, need_of};
use point_query::Asker;
use rcc5_core::Position;
use std::alloc::{AllocError, Global};

/// So many reasons are kept of a pair.
const MOST_REASONS: usize = 8;

/// A need, by its number, and the id of a clause that closes it.
#[derive(Clone, Copy)]
pub struct Reason {
    pub need: u64,
    pub clause: u64,
}

/// Where a dead node has a need without a point, as far as somebody knows: a hint.
#[derive(Clone, Copy)]
pub enum Guess {
    /// Nobody knows.
    Unknown,
    /// This region of its last pair has none.
    Region(u8),
    /// This region of its last pair has none, and the node asks for none in it; each region in which it does has one.
    Beside(u8),
    /// Each region of its last pair has one.
    Elsewhere,
}

impl Guess {
    // Whether a region of the last pair may be without a point.
    pub(crate) fn may_be(self, part: u8) -> bool {
        match self {
            Guess::Unknown => true,
            Guess::Region(bare) => bare == part,
            Guess::Beside(_) | Guess::Elsewhere => false,
        }
    }
}

/// A need, by its number, and a clause that closed it.
#[derive(Clone, Copy)]
struct Kept {
    need: u64,
    by: Hint,
}

/// The last reasons of the nodes that end with one and the same pair, in a ring.
#[derive(Drop)]
struct Recent {
    list: Vec<Kept>,
    next: usize,
}

/// For each pair the last reasons of the nodes that end with it: hints, since whether one holds at a node is tested anew.
#[derive(Drop)]
pub struct Hints {
    pairs: Vec<Recent>,
    lemmas: Lemmas,
    pub(crate) given: Given,
    pub(crate) guess: Guess,
    pub(crate) alloc: Global,
}

// Whether a reason holds at a node: it forces the need, and the clause is live and closes it.
pub(crate) fn holds(problem: &Problem, asker: &Asker, node: &Position, reason: Reason) -> bool
    requires { length node.now ≤ pair_count problem.now }
    ensures { IsTrue result → Closes problem.now asker.now.solver.state node.now reason }
{
    let Some(need) = need_of(problem, reason.need) else {
        return false;
    };
    if !is_forced(problem, node, need) {
        return false;
    }
    closes(problem, asker, node, need, reason.clause)
}

// A reason, if it holds at a node.
pub(crate) fn held(
    problem: &Problem,
    asker: &Asker,
    node: &Position,
    reason: Reason,
) -> Option<Reason>
    requires { length node.now ≤ pair_count problem.now }
    ensures { IfSome result (Closes problem.now asker.now.solver.state node.now) }
{
    if holds(problem, asker, node, reason) {
        Some(reason)
    } else {
        None
    }
}

impl Kept {
    // Whether a clause with these literals would close the need at a node, live or not.
    fn may_close(&self, problem: &Problem, node: &Position, lits: &[Lit]) -> bool
        requires { length node.now ≤ pair_count problem.now }
    {
        match need_of(problem, self.need) {
            Some(need) => { is_forced(problem, node, need) && may_close(problem, node, need, lits) }
            None => false,
        }
    }
}

impl Recent {
    // The first reason that holds at a node.
    fn again(
        &self,
        problem: &Problem,
        asker: &Asker,
        lemmas: &Lemmas,
        node: &Position,
    ) -> Option<Reason>
        requires { length node.now ≤ pair_count problem.now }
        ensures { IfSome result (Closes problem.now asker.now.solver.state node.now) }
    {
        for kept in &self.list {
            if let Some(clause) = lemmas.id_of(kept.by) {
                let need = kept.need;
                if holds(problem, asker, node, Reason { need, clause }) {
                    return Some(Reason { need, clause });
                }
            }
        }
        None
    }

    // The first reason whose clause was forgotten, would close its need at a node and is shown anew.
    #[tactic(auto, using(search_log::proofs::Logs::asker_stays, search_log::proofs::Logs::asker_joins))]
    fn anew(
        &self,
        problem: &Problem,
        asker: &mut Asker,
        lemmas: &mut Lemmas,
        node: &Position,
    ) -> Result<Option<Reason>, AllocError>
        requires within { length node.now ≤ pair_count problem.now }
        requires shape { asker.old.shape ≡ shape_of problem.now }
        ensures kept { AskerGoes asker.old asker.new }
        ensures closes { IfOk result (λ found. IfSome found (Closes problem.now asker.new.solver.state node.now)) }
    {
        for kept in &self.list {
            if let Hint::Lemma(place) = kept.by {
                if kept.may_close(problem, node, lemmas.lits(place)) {
                    if let Some(clause) = lemmas.show(asker, place)? {
                        let need = kept.need;
                        return Ok(held(problem, asker, node, Reason { need, clause }));
                    }
                }
            }
        }
        Ok(None)
    }

    // The live clause of the first reason with a need that leaves it no point at a node, forced there or not.
    fn clause_of(
        &self,
        problem: &Problem,
        asker: &Asker,
        lemmas: &Lemmas,
        node: &Position,
        need: Need,
        number: u64,
    ) -> Option<u64>
        requires within { length node.now ≤ pair_count problem.now }
        requires range { IsInRange problem.now need }
    {
        for kept in &self.list {
            if kept.need == number {
                if let Some(clause) = lemmas.id_of(kept.by) {
                    if closes(problem, asker, node, need, clause) {
                        return Some(clause);
                    }
                }
            }
        }
        None
    }

    // Keeps a reason, in the place of the oldest where there are many.
    fn keep(&mut self, kept: Kept) -> Result<(), AllocError> {
        if self.list.len() < MOST_REASONS {
            self.list.push(kept)?;
            return Ok(());
        }
        let place = self.next % MOST_REASONS;
        self.list[place] = kept;
        self.next = (place + 1) % MOST_REASONS;
        Ok(())
    }
}

impl Hints {
    /// No reasons.
    pub fn new(alloc: Global) -> Hints {
        Hints {
            pairs: Vec::new(alloc),
            lemmas: Lemmas::new(alloc),
            given: Given::none(alloc),
            guess: Guess::Unknown,
            alloc,
        }
    }

    /// Takes a guess about the dead node that is asked about next.
    pub fn guess(&mut self, guess: Guess) {
        self.guess = guess;
    }

    // A reason that holds at a node, among those of its last pair; where none does, one whose clause is shown anew.
    #[tactic(auto, using(search_log::proofs::Logs::asker_stays))]
    pub(crate) fn once_more(
        &mut self,
        problem: &Problem,
        asker: &mut Asker,
        node: &Position,
    ) -> Result<Option<Reason>, AllocError>
        requires within { length node.now ≤ pair_count problem.now }
        requires shape { asker.old.shape ≡ shape_of problem.now }
        ensures kept { AskerGoes asker.old asker.new }
        ensures closes { IfOk result (λ found. IfSome found (Closes problem.now asker.new.solver.state node.now)) }
    {
        let reason = self.again(problem, asker, node);
        if reason.is_some() {
            return Ok(reason);
        }
        self.note(asker)?;
        self.anew(problem, asker, node)
    }

    // The first that holds as it is.
    fn again(&self, problem: &Problem, asker: &Asker, node: &Position) -> Option<Reason>
        requires { length node.now ≤ pair_count problem.now }
        ensures { IfSome result (Closes problem.now asker.now.solver.state node.now) }
    {
        let pair = node.len().checked_sub(1)?;
        let recent = self.pairs.get(pair)?;
        recent.again(problem, asker, &self.lemmas, node)
    }

    // The first with a clause that was forgotten and is shown anew.
    #[tactic(auto, using(search_log::proofs::Logs::asker_stays, search_log::proofs::Logs::asker_joins))]
    fn anew(
        &mut self,
        problem: &Problem,
        asker: &mut Asker,
        node: &Position,
    ) -> Result<Option<Reason>, AllocError>
        requires within { length node.now ≤ pair_count problem.now }
        requires shape { asker.old.shape ≡ shape_of problem.now }
        ensures kept { AskerGoes asker.old asker.new }
        ensures closes { IfOk result (λ found. IfSome found (Closes problem.now asker.new.solver.state node.now)) }
    {
        let Some(pair) = node.len().checked_sub(1) else {
            return Ok(None);
        };
        match self.pairs.get(pair) {
            Some(recent) => recent.anew(problem, asker, &mut self.lemmas, node),
            None => Ok(None),
        }
    }

    // A live clause that leaves a need of a node's last pair no point there, with the need's number.
    pub(crate) fn clause_of(
        &self,
        problem: &Problem,
        asker: &Asker,
        node: &Position,
        need: Need,
        number: u64,
    ) -> Option<u64>
        requires within { length node.now ≤ pair_count problem.now }
        requires range { IsInRange problem.now need }
    {
        let pair = node.len().checked_sub(1)?;
        let recent = self.pairs.get(pair)?;
        recent.clause_of(problem, asker, &self.lemmas, node, need, number)
    }

    // Learns the ids of the given clauses, if they are not known.
    pub(crate) fn learn(&mut self, problem: &Problem) -> Result<(), AllocError> {
        if self.given.is_none() {
            self.given = Given::new(self.alloc, problem)?;
        }
        Ok(())
    }

    // Keeps the clauses whose lines wait in an asker.
    fn note(&mut self, asker: &Asker) -> Result<(), AllocError> {
        self.lemmas.note(asker)
    }

    // Keeps what shows that a need has no point, if something does; and answers it if it holds at the node.
    pub(crate) fn keep_held(
        &mut self,
        problem: &Problem,
        asker: &Asker,
        node: &Position,
        need: Need,
        shown: Option<u64>,
    ) -> Result<Option<Reason>, AllocError>
        requires within { length node.now ≤ pair_count problem.now }
        requires range { IsInRange problem.now need }
        ensures { IfOk result (λ found. IfSome found (Closes problem.now asker.now.solver.state node.now)) }
    {
        let Some(clause) = shown else {
            return Ok(None);
        };
        let need = u64::from(need_number(problem, need));
        self.keep(asker, node, Reason { need, clause })?;
        Ok(held(problem, asker, node, Reason { need, clause }))
    }

    // Keeps a reason of a node, and the clauses whose lines wait.
    pub(crate) fn keep(
        &mut self,
        asker: &Asker,
        node: &Position,
        reason: Reason,
    ) -> Result<(), AllocError> {
        self.note(asker)?;
        let Some(pair) = node.len().checked_sub(1) else {
            return Ok(());
        };
        while self.pairs.len() <= pair {
            self.pairs.push(Recent {
                list: Vec::new(self.alloc),
                next: 0,
            })?;
        }
        let by = self.lemmas.hint(reason.clause);
        let need = reason.need;
        self.pairs[pair].keep(Kept { need, by })
    }
}
