//! What a trail does: marks and places, chains of watches, unit propagation, levels.
ghost use Rattle.std.specs.Prelude.{◌≡◌, ◌-◌, ◌*◌, ◌^◌, ◌+◌, ◌<◌, ◌≤◌, ◌↔◌, length, slice_index, slice_set, true, ℕ, Some, None, ◌≢◌, IsTrue, IfSome, IfNone, MatchBool, MatchOption, IfOk, OnOk, OnErr, take, [], ◌∷◌, ◌++◌, Contains, IsPermutation};

use crate::chains::{Chains, Shorts};
use crate::column::Column;
use crate::places::Places;
use clause_arena::{Arena, Link, Moves, Ref};
use lits_core::Lit;
use std::alloc::{AllocError, Global};

// The parts of a trail. A mark of a literal is the number of its place and one more, or 0 where it is not true.
pub(crate) struct Engine {
    pub(crate) arena: Arena,
    // The watches of each literal, a chain through the links of the clauses, and the clauses with no two different literals.
    pub(crate) chains: Chains,
    pub(crate) shorts: Shorts,
    pub(crate) marks: Column,
    pub(crate) places: Places,
    // How far propagation had come before each place.
    pub(crate) heads: Column,
    pub(crate) firsts: Column,
    // The first place whose clauses have not been visited, and the first such short clause.
    pub(crate) queue_head: usize,
    pub(crate) first: usize,
    pub(crate) variables: usize,
    // Where a compaction brings each clause; empty but while it goes on.
    pub(crate) moves: Moves,
}

// Written out, so that letting one go is a call.
impl Drop for Engine {
    fn drop(self) {
        let Engine {
            arena: _,
            chains: _,
            shorts: _,
            marks: _,
            places: _,
            heads: _,
            firsts: _,
            queue_head: _,
            first: _,
            variables: _,
            moves: _,
        } = self;
    }
}

// What came of the visit of a watch: the walk goes on behind this one, or a clause is false.
#[derive(Drop)]
pub(crate) enum Visit {
    Behind(Option<Link>),
    False(Ref),
}

impl Engine {
    ghost use Rattle.watch_arena.specs.Engines.{IsEngine, IsFresh, HasNoFresh, Visits, IsWalking, StaysAhead, Outcome, CanAssign, AllAgree, IsFalse, IsShort, IsShortMet, IsDone, ImpliesMore, Advances, Undoes, IsRewound, KeepsTrail, IsEmpty, without_last, with_place, with_watch_moved, mark_of};
    ghost use Rattle.watch_arena.specs.Chains.{head_of, next_of, linked, records_past, chains_past, IsEntry, SameBodies};
    ghost use Rattle.clause_arena.specs.Records.{record_at, forgotten, new_record};
    ghost use Rattle.watch_arena.specs.Places.{level_of, place_at, place_of};
    ghost use Rattle.lits_core.specs.Literals.{negation_of};

    pub(crate) fn is_true(&self, lit: Lit) -> bool
        requires { lit < length self.now.marks }
        ensures { IsTrue result ↔ (0 < mark_of self.now.marks lit) }
    {
        self.marks.get(lit.code() as usize) != 0
    }

    pub(crate) fn is_false(&self, lit: Lit) -> bool
        requires { negation_of lit < length self.now.marks }
        ensures { IsTrue result ↔ (0 < mark_of self.now.marks (negation_of lit)) }
    {
        self.is_true(lit.negate())
    }

    // A literal becomes true.
    pub(crate) fn assign(&mut self, lit: Lit, level: u32, reason: Option<Ref>)
        requires sound { IsEngine self.old }
        requires can { CanAssign self.old (record { lit = lit; level = level; reason = reason }) }
        ensures { self.new ≡ with_place self.old (record { lit = lit; level = level; reason = reason }) }
    {
        let count = self.places.len();
        self.marks.set(lit.code() as usize, count + 1);
        self.heads.set(count, self.queue_head);
        self.firsts.set(count, self.first);
        self.places.push(lit, level, reason);
    }

    // A clause's literal, by its place.
    pub(crate) fn lit_at(&self, at: Ref, place: usize) -> Lit
        requires of_the_list { at < length self.now.arena }
        requires in_range { place < length (record_at self.now.arena at).lits }
        ensures { result ≡ slice_index (record_at self.now.arena at).lits place }
    {
        Lit::from_code(self.arena.lit_at(at, place))
    }

    // Whether a literal is not false, and another one than this.
    fn may_watch(&self, lit: Lit, other: Lit) -> bool
        requires { negation_of lit < length self.now.marks }
        ensures { MatchBool result ((lit ≢ other) × (mark_of self.now.marks (negation_of lit) ≡ 0)) (lit ≢ other → 0 < mark_of self.now.marks (negation_of lit)) }
    {
        lit != other && !self.is_false(lit)
    }

    // A literal to watch in place of one that is false.
    fn fresh_watch(&self, at: Ref, other: Lit) -> Option<usize>
        requires sound { IsEngine self.now }
        requires live { (record_at self.now.arena at).live ≡ true }
        ensures found { IfSome result (λ k. IsFresh self.now at other k) }
        ensures none { IfNone result (HasNoFresh self.now at other (length (record_at self.now.arena at).lits)) }
    {
        for k in 2..self.arena.len_of(at) {
            if self.may_watch(self.lit_at(at, k), other) {
                return Some(k);
            }
        }
        None
    }

    // What comes behind an entry of a literal's chain, or what the chain begins with.
    fn lead_past(&mut self, lit: Lit, prev: &Option<Link>, next: Option<Link>)
        requires range { lit < length self.old.chains }
        requires entry { IfSome prev.now (λ p. IsEntry self.old.arena lit p) }
        ensures { self.new ≡ record self.old { arena = records_past self.old.arena prev.now next; chains = chains_past self.old.chains lit prev.now next } }
    {
        match prev {
            Some(link) => self.arena.set_link(link.at, link.slot, next),
            None => self.chains.set_head(lit.code() as usize, next),
        }
    }

    // An entry comes to the front of a literal's chain.
    pub(crate) fn attach(&mut self, lit: Lit, entry: Link)
        requires range { lit < length self.old.chains }
        requires entry { IsEntry self.old.arena lit entry }
        ensures { self.new ≡ record self.old { arena = linked self.old.arena entry (head_of self.old.chains lit); chains = slice_set self.old.chains lit (Some entry) } }
    {
        let next = self.chains.head(lit.code() as usize);
        self.arena.set_link(entry.at, entry.slot, next);
        self.chains.set_head(lit.code() as usize, Some(entry));
    }

    // A clause's watch leaves a literal's chain, for that of the literal at place k of the clause.
    fn move_watch(&mut self, lit: Lit, prev: &Option<Link>, entry: Link, k: usize)
        requires sound { IsEngine self.old }
        requires range { lit < 2 * self.old.variables }
        requires walking { IsWalking self.old lit prev.now (Some entry) }
        requires fresh { IsFresh self.old entry.at (slice_index (record_at self.old.arena entry.at).lits (1 - entry.slot)) k }
        requires lit_false { 0 < mark_of self.old.marks (negation_of lit) }
        requires live { (record_at self.old.arena entry.at).live ≡ true }
        ensures { self.new ≡ with_watch_moved self.old lit prev.now entry k }
    {
        let fresh = self.lit_at(entry.at, k);
        let next = self.arena.link(entry.at, entry.slot);
        self.lead_past(lit, prev, next);
        self.arena.swap_lits(entry.at, entry.slot as usize, k);
        self.attach(fresh, entry);
    }

    // Visits the watch of a live clause on a literal that has become false.
    fn visit_live(&mut self, lit: Lit, prev: &Option<Link>, entry: Link) -> Visit
        requires sound { IsEngine self.old }
        requires range { lit < 2 * self.old.variables }
        requires walking { IsWalking self.old lit prev.now (Some entry) }
        requires lit_false { 0 < mark_of self.old.marks (negation_of lit) }
        requires live { (record_at self.old.arena entry.at).live ≡ true }
        ensures visits { Visits self.old self.new lit }
        ensures ahead { StaysAhead self.old self.new entry }
        ensures outcome { Outcome self.old self.new lit entry result }
    {
        let other = self.lit_at(entry.at, 1 - entry.slot as usize);
        if self.is_true(other) {
            return Visit::Behind(Some(entry));
        }
        if let Some(k) = self.fresh_watch(entry.at, other) {
            self.move_watch(lit, prev, entry, k);
            return Visit::Behind(*prev);
        }
        if self.is_false(other) {
            return Visit::False(entry.at);
        }
        let level = self.level();
        self.assign(other, level, Some(entry.at));
        Visit::Behind(Some(entry))
    }

    // Visits an entry of the chain of a literal that has become false; one of a clause that is not live is passed over.
    fn visit(&mut self, lit: Lit, prev: &Option<Link>, entry: Link) -> Visit
        requires sound { IsEngine self.old }
        requires range { lit < 2 * self.old.variables }
        requires walking { IsWalking self.old lit prev.now (Some entry) }
        requires lit_false { 0 < mark_of self.old.marks (negation_of lit) }
        ensures visits { Visits self.old self.new lit }
        ensures ahead { StaysAhead self.old self.new entry }
        ensures outcome { Outcome self.old self.new lit entry result }
    {
        if self.arena.is_live(entry.at) {
            self.visit_live(lit, prev, entry)
        } else {
            Visit::Behind(Some(entry))
        }
    }

    // The level that the places have come to.
    pub(crate) fn level(&self) -> u32
        requires { IsEngine self.now }
        ensures { result ≡ level_of self.now.places.list }
    {
        let count = self.places.len();
        if count == 0 {
            0
        } else {
            self.places.get(count - 1).level
        }
    }

    // Visits all clauses that watch a literal which has become false.
    fn propagate_lit(&mut self, lit: Lit) -> Option<Ref>
        requires sound { IsEngine self.old }
        requires range { lit < 2 * self.old.variables }
        requires lit_false { 0 < mark_of self.old.marks (negation_of lit) }
        ensures visits { Visits self.old self.new lit }
        ensures outcome { MatchOption result (AllAgree self.new lit) (λ at. IsFalse self.new at) }
    {
        let mut prev = None;
        let mut cur = self.chains.head(lit.code() as usize);
        while let Some(link) = &cur {
            let entry = Link {
                at: link.at,
                slot: link.slot,
            };
            let next = self.arena.link(link.at, link.slot);
            match self.visit(lit, &prev, entry) {
                Visit::Behind(link) => prev = link,
                Visit::False(at) => return Some(at),
            }
            cur = next;
        }
        None
    }

    // Visits the clauses of the place at the queue's head, and moves the queue's head on where none of them is false.
    fn advance(&mut self) -> Option<Ref>
        requires sound { IsEngine self.old }
        requires queue_head { self.old.queue_head < length self.old.places.list }
        ensures advances { Advances self.old self.new }
        ensures outcome { MatchOption result (self.new.queue_head ≡ self.old.queue_head + 1) (λ at. IsFalse self.new at) }
    {
        let lit = self.places.get(self.queue_head).lit.negate();
        match self.propagate_lit(lit) {
            Some(at) => Some(at),
            None => {
                self.queue_head += 1;
                None
            }
        }
    }

    // Visits the clauses of all places from the queue's head on.
    fn advance_all(&mut self) -> Option<Ref>
        requires sound { IsEngine self.old }
        ensures advances { Advances self.old self.new }
        ensures outcome { MatchOption result (self.new.queue_head ≡ length self.new.places.list) (λ at. IsFalse self.new at) }
    {
        while self.queue_head < self.places.len() {
            if let Some(at) = self.advance() {
                return Some(at);
            }
        }
        None
    }

    // Unit propagation: a clause all of whose literals are false, or none where no clause is false or unit.
    pub(crate) fn propagate(&mut self) -> Option<Ref>
        requires { IsEngine self.old }
        ensures sound { IsEngine self.new }
        ensures implies { ImpliesMore self.old self.new }
        ensures outcome { MatchOption result (IsDone self.new) (λ at. IsFalse self.new at) }
    {
        match self.meet_all() {
            Some(at) => Some(at),
            None => self.advance_all(),
        }
    }

    // A literal is assumed at a new level.
    pub(crate) fn assume(&mut self, lit: Lit)
        requires sound { IsEngine self.old }
        requires range { lit < 2 * self.old.variables }
        requires not_true { mark_of self.old.marks lit ≡ 0 }
        requires not_false { mark_of self.old.marks (negation_of lit) ≡ 0 }
        ensures sound { IsEngine self.new }
        ensures is { self.new ≡ with_place self.old (record { lit = lit; level = level_of self.old.places.list + 1; reason = None }) }
    {
        let level = self.level() + 1;
        self.assign(lit, level, None);
    }

    // A literal is implied by a clause.
    pub(crate) fn imply(&mut self, lit: Lit, at: Ref)
        requires sound { IsEngine self.old }
        requires can { CanAssign self.old (record { lit = lit; level = level_of self.old.places.list; reason = Some at }) }
        ensures sound { IsEngine self.new }
        ensures is { self.new ≡ with_place self.old (record { lit = lit; level = level_of self.old.places.list; reason = Some at }) }
    {
        let level = self.level();
        self.assign(lit, level, Some(at));
    }

    // The last place goes.
    fn unassign_last(&mut self)
        requires sound { IsEngine self.old }
        requires some { 0 < length self.old.places.list }
        ensures sound { IsEngine self.new }
        ensures is { self.new ≡ without_last self.old }
    {
        let last = self.places.len() - 1;
        let lit = self.places.get(last).lit;
        self.marks.set(lit.code() as usize, 0);
        self.queue_head = self.heads.get(last);
        self.first = self.firsts.get(last);
        self.places.pop();
    }

    // All places above a level go.
    pub(crate) fn undo_to(&mut self, level: u32)
        requires sound { IsEngine self.old }
        requires level { level ≤ level_of self.old.places.list }
        ensures sound { IsEngine self.new }
        ensures undoes { Undoes self.old self.new level }
    {
        while self.level() > level {
            self.unassign_last();
        }
    }

    // A clause is live no more.
    pub(crate) fn forget(&mut self, at: Ref)
        requires sound { IsEngine self.old }
        requires live { (record_at self.old.arena at).live ≡ true }
        requires no_reason { (p : ℕ) → p < length self.old.places.list → (place_at self.old.places.list p).reason ≡ Some at → ⊥ }
        ensures sound { IsEngine self.new }
        ensures is { self.new ≡ record self.old { arena = slice_set self.old.arena at (forgotten (record_at self.old.arena at)) } }
    {
        self.arena.forget(at);
    }

    // The number of the place of a variable; none also past the last variable.
    pub(crate) fn place_of(&self, variable: u32) -> Option<usize>
        requires sound { IsEngine self.now }
        ensures place { result ≡ place_of self.now.places.list variable }
        ensures within { IfSome result (λ p. p < length self.now.places.list) }
    {
        if variable as usize >= self.variables {
            return None;
        }
        let positive = self.marks.get(2 * variable as usize);
        if positive != 0 {
            return Some(positive - 1);
        }
        let negative = self.marks.get(2 * variable as usize + 1);
        if negative != 0 {
            return Some(negative - 1);
        }
        None
    }

    pub(crate) fn new(alloc: Global, variables: u32) -> Result<Engine, AllocError>
        ensures sound { IfOk result (λ e. IsEngine e) }
        ensures empty { IfOk result (λ e. IsEmpty e variables) }
    {
        let count = variables as usize;

        // What takes memory is made first, so that little has to be let go where there is none.
        Ok(Engine {
            marks: Column::new(alloc, 2 * count)?,
            heads: Column::new(alloc, count)?,
            firsts: Column::new(alloc, count)?,
            places: Places::new(alloc, count)?,
            chains: Chains::new(alloc, 2 * count)?,
            arena: Arena::new(alloc),
            shorts: Shorts::new(alloc),
            queue_head: 0,
            first: 0,
            variables: count,
            moves: Moves::new(alloc),
        })
    }
}
