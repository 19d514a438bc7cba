//! The desk, as its users see it.
ghost use Rattle.std.specs.Prelude.{◌≡◌, ◌<◌, length, replicate, None, IfOk, slice_set, slice_index_or};
ghost use Rattle.desk_run.specs.Script.Requests.{IsRequest};
ghost use Rattle.desk_run.specs.Desk.Desks.{all_closed, IsExchange};

use crate::desk::acts::{Answer, act_on};
use crate::desk::reply::Reply;
use crate::desk::slot::OpenSlot;
use crate::script::DeskRequest;
use constraint_set::Problem;
use std::alloc::{AllocError, Global};
use std::marker::Model;
use std::mem;

/// The highest number of a slot.
const LAST_SLOT: usize = 16;

/// Sixteen slots over one problem.
///
/// They share the problem's concepts and statements.
pub struct Desk {
    problem: Problem,
    // By number; none has the number 0.
    slots: Vec<Option<OpenSlot>>,
    alloc: Global,
}

// Written out, so that letting one go is a call.
impl Drop for Desk {
    fn drop(self) {
        let Desk {
            problem: _,
            slots: _,
            alloc: _,
        } = self;
    }
}

impl Model for Desk {
    ghost use Rattle.desk_run.specs.Desk.Desks.{DeskState};

    ghost Value = { DeskState };

    ghost use Rattle.desk_run.specs.Desk.Keeping.{IsDesk};

    ghost view = { λ s. record { problem = s.problem; slots = s.slots.items } };

    ghost invariant = { λ s. IsDesk s.problem s.slots.items };
}

// Puts a slot in a place, and gives the one that was there.
fn exchange(
    slots: &mut Vec<Option<OpenSlot>>,
    place: usize,
    slot: Option<OpenSlot>,
) -> Option<OpenSlot>
    requires { place < length slots.old.items }
    ensures was { result ≡ slice_index_or slots.old.items place None }
    ensures now { slots.new.items ≡ slice_set slots.old.items place slot }
{
    mem::replace(&mut slots[place], slot)
}

// So many closed slots.
fn closed(alloc: Global, count: usize) -> Result<Vec<Option<OpenSlot>>, AllocError>
    ensures { IfOk result (λ slots. slots.items ≡ replicate count None) }
{
    let mut slots = Vec::with_capacity(alloc, count)?;
    for _ in 0..count {
        slots.push(None)?;
    }
    Ok(slots)
}

impl Desk {
    /// A desk whose slots are closed.
    pub fn new(alloc: Global, problem: Problem) -> Result<Desk, AllocError>
        ensures { IfOk result (λ desk. desk ≡ all_closed problem) }
    {
        let slots = closed(alloc, LAST_SLOT + 1)?;
        Ok(Desk {
            problem,
            slots,
            alloc,
        })
    }

    /// Handles a request whole.
    pub fn handle(&mut self, request: &DeskRequest) -> Reply
        requires { IsRequest self.old.problem request.now }
        ensures { IsExchange self.old request.now result self.new }
    {
        let place = request.slot as usize;
        let slot = exchange(&mut self.slots, place, None);
        let Answer { reply, slot } = act_on(self.alloc, &self.problem, slot, &request.act);
        let _ = exchange(&mut self.slots, place, slot);
        reply
    }
}
