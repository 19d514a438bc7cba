//! The clauses that closed needs before, remembered by their ids.
ghost use Rattle.std.specs.Prelude.{◌≡◌, ◌<◌, [], ◌∷◌, ◌++◌, length, map, filter, set, slice_index_or, IfOk, OnOk, OnErr, IfSome};
ghost use Rattle.learn_solver.specs.Solving.{GoesTo, IsTidied};
ghost use Rattle.point_query.specs.Remembered.{is_live};

use learn_solver::Solver;
use std::alloc::{AllocError, Global};
use std::marker::Model;

/// Ids of clauses.
#[derive(Drop)]
struct Ids {
    list: Vec<u64>,
}

impl Model for Ids {
    ghost use Rattle.std.specs.Prelude.{ℕ, List};

    ghost Value = { List ℕ };

    ghost view = { λ ids. ids.list.items };
}

impl Ids {
    // Lets go the ids whose clauses are live no more.
    fn keep_live(&mut self, solver: &Solver)
        ensures { self.new ≡ filter (is_live solver.now.state) self.old }
    {
        self.list.retain(|id| solver.clause(*id).is_some());
    }
}

/// For each need, the ids of clauses that closed it at some prefix: hints, since what a clause says is read anew.
#[derive(Drop)]
pub(crate) struct Closings {
    lists: Vec<Ids>,
}

impl Model for Closings {
    ghost use Rattle.std.specs.Prelude.{ℕ, List};

    ghost Value = { List (List ℕ) };

    ghost view = { λ closings. closings.lists.items };
}

impl Closings {
    // No ids, for so many needs.
    pub(crate) fn new(alloc: Global, needs: u32) -> Result<Closings, AllocError> {
        let mut lists = Vec::with_capacity(alloc, needs as usize)?;
        for _number in 0..needs {
            lists.push(Ids {
                list: Vec::new(alloc),
            })?;
        }
        Ok(Closings { lists })
    }

    // The ids that were noted for the need with a number.
    pub(crate) fn of(&self, number: u32) -> Option<&[u64]>
        ensures { IfSome result (λ ids. ids.now ≡ slice_index_or self.now number []) }
    {
        let ids = self.lists.get(number as usize)?;
        Some(ids.list.as_slice())
    }

    // Notes a clause that closes a need.
    pub(crate) fn note(&mut self, number: u32, id: u64) -> Result<(), AllocError>
        ensures { OnOk result (number < length self.old → self.new ≡ set self.old number (slice_index_or self.old number [] ++ id ∷ [])) }
    {
        if (number as usize) < self.lists.len() {
            self.lists[number as usize].list.push(id)?;
        }
        Ok(())
    }

    // Lets go the ids whose clauses are live no more.
    fn keep_live(&mut self, solver: &Solver)
        ensures { self.new ≡ map (filter (is_live solver.now.state)) self.old }
    {
        for ids in self.lists.iter_mut() {
            ids.keep_live(solver);
        }
    }
}

// Forgets the clauses that are idle, and their ids with them.
pub(crate) fn forget_idle(solver: &mut Solver, closings: &mut Closings) -> Result<(), AllocError>
    ensures kept { GoesTo solver.old solver.new }
    ensures ok { OnOk result (IsTidied solver.old solver.new) }
    ensures remembered { OnOk result (closings.new ≡ map (filter (is_live solver.new.state)) closings.old) }
    ensures err { OnErr result (solver.new ≡ solver.old) }
    ensures none_lost { OnErr result (closings.new ≡ closings.old) }
{
    solver.tidy()?;
    closings.keep_live(solver);
    Ok(())
}
