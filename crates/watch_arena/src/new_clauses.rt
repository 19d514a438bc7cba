//! Clauses are added, at any level.
ghost use Rattle.std.specs.Prelude.{◌≡◌, ◌≢◌, ◌*◌, ◌+◌, ◌<◌, ◌≤◌, ℕ, [], ◌∷◌, ◌++◌, length, slice_index, Contains, IsPermutation, IfOk, IfSome, IfNone, OnOk, OnErr};

use crate::engine::Engine;
use clause_arena::{Link, Ref};
use lits_core::Lit;
use std::alloc::AllocError;

impl Engine {
    ghost use Rattle.watch_arena.specs.Engines.{IsEngine, IsRewound, KeepsTrail, IsShort, mark_of};
    ghost use Rattle.watch_arena.specs.Chains.{SameBodies};
    ghost use Rattle.clause_arena.specs.Records.{new_record};
    ghost use Rattle.lits_core.specs.Literals.{negation_of};

    // The number of the place at which a literal became false; the largest number where it is not false.
    fn false_since(&self, lit: Lit) -> usize
        requires { negation_of lit < length self.now.marks }
        ensures { 0 < mark_of self.now.marks (negation_of lit) → result < mark_of self.now.marks (negation_of lit) }
    {
        match self.marks.get(lit.negate().code() as usize) {
            0 => usize::MAX,
            mark => mark - 1,
        }
    }

    // Propagation goes back, so that no place from a number on counts as visited, now or after places are undone.
    fn rewind(&mut self, place: usize)
        requires { IsEngine self.old }
        ensures sound { IsEngine self.new }
        ensures rewound { IsRewound self.new place }
        ensures same { self.new ≡ record self.old { heads = self.new.heads; queue_head = self.new.queue_head } }
    {
        self.queue_head = self.queue_head.min(place);
        let count = self.places.len();
        self.heads.cap(place, count, place);
    }

    // Adds a clause whose first two literals differ.
    fn add_watched(&mut self, codes: &[u32], id: u64) -> Result<Ref, AllocError>
        requires sound { IsEngine self.old }
        requires range { (lit : ℕ) → Contains codes.now lit → lit < 2 * self.old.variables }
        requires two { 2 ≤ length codes.now }
        requires differ { slice_index codes.now 0 ≢ slice_index codes.now 1 }
        ensures sound { IsEngine self.new }
        ensures places { KeepsTrail self.old self.new }
        ensures at { IfOk result (λ at. at ≡ length self.old.arena) }
        ensures ok { OnOk result (SameBodies (self.old.arena ++ new_record id codes.now ∷ []) self.new.arena) }
        ensures err { OnErr result (self.new.arena ≡ self.old.arena) }
    {
        let first = Lit::from_code(codes[0]);
        let second = Lit::from_code(codes[1]);
        let since = self.false_since(first).min(self.false_since(second));
        self.rewind(since);
        let at = self.arena.put(codes, id)?;
        self.attach(first, Link { at, slot: 0 });
        self.attach(second, Link { at, slot: 1 });
        Ok(at)
    }

    // Adds a clause with no two different literals. It is listed first, as what is listed needs to be no clause.
    fn add_short(&mut self, codes: &[u32], id: u64) -> Result<Ref, AllocError>
        requires sound { IsEngine self.old }
        requires range { (lit : ℕ) → Contains codes.now lit → lit < 2 * self.old.variables }
        requires short { IsShort codes.now }
        ensures sound { IsEngine self.new }
        ensures places { KeepsTrail self.old self.new }
        ensures at { IfOk result (λ at. at ≡ length self.old.arena) }
        ensures ok { OnOk result (self.new.arena ≡ self.old.arena ++ new_record id codes.now ∷ []) }
        ensures err { OnErr result (self.new.arena ≡ self.old.arena) }
    {
        let Some(next) = self.arena.next_ref() else {
            return Err(AllocError);
        };
        self.shorts.push(next)?;
        let at = self.arena.put(codes, id)?;
        Ok(at)
    }

    // Adds a clause. It watches the first literal and the next one that differs from it.
    pub(crate) fn add(&mut self, codes: &mut [u32], id: u64) -> Result<Ref, AllocError>
        requires sound { IsEngine self.old }
        requires range { (lit : ℕ) → Contains codes.old lit → lit < 2 * self.old.variables }
        ensures sound { IsEngine self.new }
        ensures places { KeepsTrail self.old self.new }
        ensures at { IfOk result (λ at. at ≡ length self.old.arena) }
        ensures permuted { IsPermutation codes.old codes.new }
        ensures ok { OnOk result (SameBodies (self.old.arena ++ new_record id codes.new ∷ []) self.new.arena) }
        ensures err { OnErr result (self.new.arena ≡ self.old.arena) }
    {
        match other_of(codes) {
            Some(k) => {
                codes.swap(1, k);
                self.add_watched(codes, id)
            }
            None => self.add_short(codes, id),
        }
    }
}

// The first place of a code that differs from the first code.
fn other_of(codes: &[u32]) -> Option<usize>
    ensures found { IfSome result (λ k. (k < length codes.now) × (slice_index codes.now k ≢ slice_index codes.now 0)) }
    ensures none { IfNone result ((k : ℕ) → k < length codes.now → slice_index codes.now k ≡ slice_index codes.now 0) }
{
    for k in 1..codes.len() {
        if codes[k] != codes[0] {
            return Some(k);
        }
    }
    None
}
