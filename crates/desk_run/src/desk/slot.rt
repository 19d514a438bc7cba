//! An open slot.
ghost use Rattle.std.specs.Prelude.{◌≡◌, ◌<◌, length, None, IfOk, OnOk, OnErr};
ghost use Rattle.world_model.specs.Problem.{pair_count, restricted, narrowed};
ghost use Rattle.world_model.specs.Node.{pair_at};
ghost use Rattle.desk_run.specs.Desk.Keeping.{IsShown, IsWalkBehind};

use constraint_set::Problem;
use rcc5_core::{Position, RelSet};
use std::alloc::{AllocError, Global};
use std::marker::Model;
use world_walk::Walk;

/// What an open slot has of its own: a problem, the last world that it showed, and a walk on from there.
pub(crate) struct OpenSlot {
    problem: Problem,
    last: Option<Position>,
    // A hint: what is shown next follows from the others.
    walk: Option<Walk>,
}

// Written out, so that letting one go is a call.
impl Drop for OpenSlot {
    fn drop(self) {
        let OpenSlot {
            problem: _,
            last: _,
            walk: _,
        } = self;
    }
}

impl Model for OpenSlot {
    ghost use Rattle.desk_run.specs.Desk.Slots.{OpenSlot};

    ghost Value = { OpenSlot };

    ghost use Rattle.desk_run.specs.Desk.Keeping.{IsKept};

    ghost view = { λ s. record { problem = s.problem; last = s.last } };

    ghost invariant = { λ s. IsKept s.problem s.last s.walk };
}

impl OpenSlot {
    /// A slot that has shown no world yet.
    pub(crate) fn new(problem: Problem) -> OpenSlot
        ensures { result ≡ record { problem = problem; last = None } }
    {
        OpenSlot {
            problem,
            last: None,
            walk: None,
        }
    }

    /// Keeps other statements, and begins anew.
    pub(crate) fn keep(&mut self, alloc: Global, flags: &[bool]) -> Result<(), AllocError>
        requires { length flags.now ≡ length self.old.problem.articulations }
        ensures kept { OnOk result (self.new ≡ record { problem = restricted self.old.problem flags.now; last = None }) }
        ensures starved { OnErr result (self.new ≡ self.old) }
    {
        let problem = self.problem.restricted(alloc, flags)?;
        *self = OpenSlot::new(problem);
        Ok(())
    }

    /// Narrows a pair besides, and begins anew.
    pub(crate) fn narrow(&mut self, alloc: Global, pair: u32, set: RelSet) -> Result<(), AllocError>
        requires { pair < pair_count self.old.problem }
        ensures narrowed { OnOk result (self.new ≡ record { problem = narrowed self.old.problem (pair_at self.old.problem pair) set; last = None }) }
        ensures starved { OnErr result (self.new ≡ self.old) }
    {
        // The walk goes first: it may share what is narrowed, which would be made anew then.
        self.walk = None;
        self.problem.narrow(alloc, pair, set)?;
        self.last = None;
        Ok(())
    }

    /// Goes to the next world, if one is to come.
    pub(crate) fn next(&mut self, alloc: Global) -> Result<Option<Position>, AllocError>
        ensures shown { IfOk result (IsShown self.old self.new) }
        ensures starved { OnErr result (self.new ≡ self.old) }
    {
        // Without memory the walk is not put back, and the next one begins at the last world.
        let mut walk = self.take_walk(alloc)?;
        match walk.next(alloc, &self.problem)? {
            Some(table) => {
                let last = table.copy(alloc)?;
                self.last = Some(last);
                self.walk = Some(walk);
                Ok(Some(table))
            }
            None => {
                self.walk = Some(walk);
                Ok(None)
            }
        }
    }

    // The walk that was kept, or a new one behind the last world. The slot keeps none.
    fn take_walk(&mut self, alloc: Global) -> Result<Walk, AllocError>
        ensures same { self.new ≡ self.old }
        ensures walk { IfOk result (IsWalkBehind self.old.problem self.old.last) }
    {
        match self.walk.take() {
            Some(walk) => Ok(walk),
            None => Walk::behind(alloc, &self.problem, &self.last),
        }
    }
}
