//! The literals that are true, in their order.
ghost use Rattle.std.specs.Prelude.{◌≡◌, ◌<◌, ◌≤◌, ◌-◌, [], ◌∷◌, ◌++◌, length, take, slice_get, slice_index_or, option_and_then, IfOk, OnSome};
ghost use Rattle.std.specs.Option.{option_copied};
ghost use Rattle.clause_arena.specs.Movings.{new_ref};
ghost use Rattle.watch_arena.specs.Places.{places_with};

use clause_arena::{Moves, Ref};
use lits_core::Lit;
use std::alloc::{AllocError, Global};
use std::marker::Model;

/// A literal that is true, the level at which it became so, and the clause that implied it; none where it was assumed.
#[derive(Debug, Drop)]
pub struct Place {
    pub lit: Lit,
    pub level: u32,
    pub reason: Option<Ref>,
}

// Places in the order in which their literals became true, with room for all of them from the start.
#[derive(Drop)]
pub(crate) struct Places {
    list: Vec<Place>,
    room: usize,
}

impl Model for Places {
    ghost use Rattle.std.specs.Prelude.{◌≤◌};
    ghost use Rattle.std.specs.Vec.{vec_capacity};
    ghost use Rattle.watch_arena.specs.Stack.{Stack};

    ghost Value = { Stack };

    ghost view = { λ p. record { list = p.list.items; room = p.room } };

    ghost invariant = { λ p. p.room ≤ vec_capacity p.list };
}

impl Places {
    pub(crate) fn new(alloc: Global, room: usize) -> Result<Places, AllocError>
        ensures list { IfOk result (λ p. p.list ≡ []) }
        ensures room { IfOk result (λ p. p.room ≡ room) }
    {
        let list = Vec::with_capacity(alloc, room)?;
        Ok(Places { list, room })
    }

    pub(crate) fn len(&self) -> usize
        ensures { result ≡ length self.now.list }
    {
        self.list.len()
    }

    pub(crate) fn get(&self, at: usize) -> &Place
        requires { at < length self.now.list }
        ensures { result.now ≡ slice_index_or self.now.list at result.now }
    {
        &self.list[at]
    }

    pub(crate) fn push(&mut self, lit: Lit, level: u32, reason: Option<Ref>)
        requires { length self.old.list < self.old.room }
        ensures { self.new ≡ record self.old { list = self.old.list ++ record { lit = lit; level = level; reason = reason } ∷ [] } }
    {
        self.list.push_reserved(Place { lit, level, reason });
    }

    pub(crate) fn pop(&mut self)
        ensures { self.new ≡ record self.old { list = take (length self.old.list - 1) self.old.list } }
    {
        self.list.pop();
    }

    // Each reason is named as the moves tell.
    pub(crate) fn mend(&mut self, moves: &Moves)
        ensures { self.new ≡ record self.old { list = places_with (new_ref moves.now.pairs) self.old.list } }
    {
        rename(&mut self.list, moves);
    }
}

// The new name of a reason, if there is a reason.
fn renamed(reason: Option<Ref>, moves: &Moves) -> Option<Ref>
    ensures { result ≡ option_and_then (new_ref moves.now.pairs) reason }
{
    match reason {
        Some(at) => moves.moved(at),
        None => None,
    }
}

// Each place has the new name of its reason.
fn rename(places: &mut [Place], moves: &Moves)
    ensures { places.new ≡ places_with (new_ref moves.now.pairs) places.old }
{
    for at in 0..places.len() {
        let reason = renamed(places[at].reason, moves);
        places[at].reason = reason;
    }
}
