//! What each act does to a slot.
ghost use Rattle.std.specs.Prelude.{◌≡◌, ◌<◌, length, Some, None};
ghost use Rattle.world_model.specs.Problem.{Problem, pair_count};
ghost use Rattle.desk_run.specs.Script.Requests.{IsAct};
ghost use Rattle.desk_run.specs.declared.script.requests.Act.TheVariants.{Open, Keep, Narrow, Next};
ghost use Rattle.desk_run.specs.Desk.Desks.{IsAnswer};
ghost use Rattle.desk_run.specs.Desk.Keeping.{HasShape};

use crate::desk::reply::Reply;
use crate::desk::slot::OpenSlot;
use crate::script::{Act, Flags};
use constraint_set::Problem;
use rcc5_core::RelSet;
use std::alloc::Global;

/// A reply, and the slot behind it.
#[derive(Drop)]
pub(crate) struct Answer {
    pub(crate) reply: Reply,
    pub(crate) slot: Option<OpenSlot>,
}

// A closed slot opens.
fn open(problem: &Problem) -> Answer
    ensures { IsAnswer problem.now None Open result.reply result.slot }
{
    match problem.copy() {
        Ok(problem) => Answer {
            reply: Reply::Opened,
            slot: Some(OpenSlot::new(problem)),
        },
        Err(_) => Answer {
            reply: Reply::NoMemory,
            slot: None,
        },
    }
}

// An open slot keeps other statements.
fn keep(alloc: Global, slot: OpenSlot, flags: &Flags) -> Answer
    requires { length flags.now ≡ length slot.problem.articulations }
    ensures { (p : Problem) → IsAnswer p (Some slot) (Keep flags.now) result.reply result.slot }
{
    let mut slot = slot;
    match slot.keep(alloc, flags.list()) {
        Ok(()) => Answer {
            reply: Reply::Kept,
            slot: Some(slot),
        },
        Err(_) => Answer {
            reply: Reply::NoMemory,
            slot: Some(slot),
        },
    }
}

// An open slot narrows a pair.
fn narrow(alloc: Global, slot: OpenSlot, pair: u32, set: RelSet) -> Answer
    requires { pair < pair_count slot.problem }
    ensures { (p : Problem) → IsAnswer p (Some slot) (Narrow pair set) result.reply result.slot }
{
    let mut slot = slot;
    match slot.narrow(alloc, pair, set) {
        Ok(()) => Answer {
            reply: Reply::Narrowed,
            slot: Some(slot),
        },
        Err(_) => Answer {
            reply: Reply::NoMemory,
            slot: Some(slot),
        },
    }
}

// An open slot shows the next world.
fn show(alloc: Global, slot: OpenSlot) -> Answer
    ensures { (p : Problem) → IsAnswer p (Some slot) Next result.reply result.slot }
{
    let mut slot = slot;
    match slot.next(alloc) {
        Ok(Some(table)) => Answer {
            reply: Reply::World(table),
            slot: Some(slot),
        },
        Ok(None) => Answer {
            reply: Reply::NoneLeft,
            slot: Some(slot),
        },
        Err(_) => Answer {
            reply: Reply::NoMemory,
            slot: Some(slot),
        },
    }
}

// What a closed slot answers.
fn at_closed(problem: &Problem, act: &Act) -> Answer
    ensures { IsAnswer problem.now None act.now result.reply result.slot }
{
    match act {
        Act::Open => open(problem),
        _ => Answer {
            reply: Reply::SlotClosed,
            slot: None,
        },
    }
}

// What an open slot answers.
fn at_open(alloc: Global, problem: &Problem, slot: OpenSlot, act: &Act) -> Answer
    requires shape { HasShape problem.now (Some slot) }
    requires act { IsAct problem.now act.now }
    ensures { IsAnswer problem.now (Some slot) act.now result.reply result.slot }
{
    match act {
        Act::Open => Answer {
            reply: Reply::SlotOpen,
            slot: Some(slot),
        },
        Act::Keep(flags) => keep(alloc, slot, flags),
        Act::Narrow { pair, set } => narrow(alloc, slot, *pair, *set),
        Act::Next => show(alloc, slot),
        Act::Close => Answer {
            reply: Reply::Closed,
            slot: None,
        },
    }
}

/// What a slot answers.
pub(crate) fn act_on(alloc: Global, problem: &Problem, slot: Option<OpenSlot>, act: &Act) -> Answer
    requires shape { HasShape problem.now slot }
    requires act { IsAct problem.now act.now }
    ensures { IsAnswer problem.now slot act.now result.reply result.slot }
{
    match slot {
        None => at_closed(problem, act),
        Some(slot) => at_open(alloc, problem, slot, act),
    }
}
