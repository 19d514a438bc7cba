//! The trail, as its users see it.
ghost use Rattle.std.specs.Prelude.{◌≡◌, ℕ, ◌+◌, ◌<◌, ◌≤◌, ◌∷◌, ◌++◌, [], length, slice_set, true, Some, None, IfOk, OnOk, OnErr, MatchOption};
ghost use Rattle.lits_core.specs.Literals.{variable_of};
ghost use Rattle.clause_arena.specs.Records.{record_at, forgotten};
ghost use Rattle.watch_arena.specs.Places.{place_at, place_of, value_of, reason_of};
ghost use Rattle.watch_arena.specs.Trails.{IsReason, IsTrail, Propagates, IsConflict, IsPropagated, Adds, IsCompacted, AreInRange, IsNoReason, places_up_to};

use crate::engine::Engine;
use clause_arena::{Arena, Ref};
use lits_core::Lit;
use std::alloc::{AllocError, Global};
use std::marker::Model;

/// Clauses, and the literals that are true, in the order in which they became so: some are assumed, each on a new level,
/// and the others implied by a clause.
///
/// Unit propagation is by two watched literals (Moskewicz, Madigan, Zhao, Zhang and Malik, *Chaff*, 2001), in the way of
/// MiniSat (Eén and Sörensson, *An Extensible SAT-solver*, 2003).
pub struct Trail {
    engine: Engine,
    alloc: Global,
}

// Written out, so that letting one go is a call.
impl Drop for Trail {
    fn drop(self) {
        let Trail {
            engine: _,
            alloc: _,
        } = self;
    }
}

impl Model for Trail {
    ghost use Rattle.watch_arena.specs.Trails.{TrailState};

    ghost Value = { TrailState };

    ghost use Rattle.watch_arena.specs.Engines.{trail_state, IsEngine};

    ghost view = { λ t. trail_state t.engine };

    ghost invariant = { λ t. IsEngine t.engine };
}

impl Trail {
    /// No clauses and no places. Variables are the numbers below `variables`; the room for their places is taken here.
    pub fn new(alloc: Global, variables: u32) -> Result<Trail, AllocError>
        ensures { IfOk result (λ t. t ≡ record { records = []; places = []; variables = variables; level = 0; spare = 0 }) }
    {
        let engine = Engine::new(alloc, variables)?;
        Ok(Trail { engine, alloc })
    }

    /// Adds a clause, at any level. One that is false or unit then is found by the next `propagate`.
    ///
    /// It watches the first literal and the next one that differs from it, so put first those that stay unassigned longest.
    pub fn add(&mut self, lits: &[Lit], id: u64) -> Result<Ref, AllocError>
        requires { AreInRange lits.now self.old.variables }
        ensures at { IfOk result (λ at. at ≡ length self.old.records) }
        ensures ok { OnOk result (Adds self.old self.new lits.now id) }
        ensures err { OnErr result (self.new ≡ self.old) }
    {
        let mut codes = codes_of(self.alloc, lits)?;
        let at = self.engine.add(&mut codes, id)?;
        Ok(at)
    }

    /// Begins a level with a literal that is true from here on.
    pub fn assume(&mut self, lit: Lit)
        requires range { variable_of lit < self.old.variables }
        requires unassigned { place_of self.old.places (variable_of lit) ≡ None }
        ensures { self.new ≡ record self.old { places = self.old.places ++ record { lit = lit; level = self.old.level + 1; reason = None } ∷ []; level = self.old.level + 1 } }
    {
        self.engine.assume(lit);
    }

    /// Marks a literal as implied by a clause that has it and whose other literals are false, as a clause that was just learnt.
    pub fn imply(&mut self, lit: Lit, at: Ref)
        requires unassigned { place_of self.old.places (variable_of lit) ≡ None }
        requires reason { IsReason self.old.records self.old.places lit at }
        ensures { self.new ≡ record self.old { places = self.old.places ++ record { lit = lit; level = self.old.level; reason = Some at } ∷ [] } }
    {
        self.engine.imply(lit, at);
    }

    /// Unit propagation, until a clause is false, which it answers, or no clause is false or unit.
    ///
    /// It takes no memory.
    pub fn propagate(&mut self) -> Option<Ref>
        ensures kept { Propagates self.old self.new }
        ensures found { MatchOption result (IsPropagated self.new) (λ at. IsConflict self.new at) }
    {
        self.engine.propagate()
    }

    /// Drops the places above a level.
    pub fn undo_to(&mut self, level: u32)
        requires { level ≤ self.old.level }
        ensures { self.new ≡ record self.old { places = places_up_to self.old.places level; level = level } }
    {
        self.engine.undo_to(level);
    }

    /// Makes a clause not live.
    pub fn forget(&mut self, at: Ref)
        requires live { (record_at self.old.records at).live ≡ true }
        requires no_reason { IsNoReason self.old.places at }
        ensures { self.new ≡ record self.old { records = slice_set self.old.records at (forgotten (record_at self.old.records at)) } }
    {
        self.engine.forget(at);
    }

    /// Makes room to compact all the clauses that there are now.
    pub fn reserve(&mut self) -> Result<(), AllocError>
        ensures same { self.new ≡ record self.old { spare = self.new.spare } }
        ensures room { OnOk result (length self.old.records ≤ self.new.spare) }
    {
        self.engine.moves.reserve(&self.engine.arena)
    }

    /// Drops the clauses that are not live, and names the others anew, in their order. It takes no memory.
    pub fn compact(&mut self)
        requires { length self.old.records ≤ self.old.spare }
        ensures { IsCompacted self.old self.new }
    {
        self.engine.compact();
    }

    /// The level: how many literals are assumed.
    pub fn level(&self) -> u32
        ensures { result ≡ self.now.level }
    {
        self.engine.level()
    }

    /// Whether a variable is true or false; none where it is unassigned, as every number past the last variable is.
    pub fn value(&self, variable: u32) -> Option<bool>
        ensures { result ≡ value_of self.now.places variable }
    {
        match self.engine.place_of(variable) {
            Some(place) => Some(!self.engine.places.get(place).lit.is_negative()),
            None => None,
        }
    }

    /// The clause that implied a variable's value; none where it was assumed or is unassigned.
    pub fn reason(&self, variable: u32) -> Option<Ref>
        ensures { result ≡ reason_of self.now.places variable }
    {
        match self.engine.place_of(variable) {
            Some(place) => self.engine.places.get(place).reason,
            None => None,
        }
    }

    /// The clauses.
    pub fn arena(&self) -> &Arena
        ensures { result.now ≡ self.now.records }
    {
        &self.engine.arena
    }

    /// How many literals are true.
    pub fn place_count(&self) -> usize
        ensures { result ≡ length self.now.places }
    {
        self.engine.places.len()
    }

    /// The number of a variable's place; none where it is unassigned.
    pub fn place_of(&self, variable: u32) -> Option<usize>
        ensures { result ≡ place_of self.now.places variable }
    {
        self.engine.place_of(variable)
    }

    /// The literal of a place.
    pub fn lit_on(&self, place: usize) -> Lit
        requires { place < length self.now.places }
        ensures { result ≡ (place_at self.now.places place).lit }
    {
        self.engine.places.get(place).lit
    }

    /// The level of a place.
    pub fn level_on(&self, place: usize) -> u32
        requires { place < length self.now.places }
        ensures { result ≡ (place_at self.now.places place).level }
    {
        self.engine.places.get(place).level
    }

    /// The clause that implied the literal of a place; none where it was assumed.
    pub fn reason_on(&self, place: usize) -> Option<Ref>
        requires { place < length self.now.places }
        ensures { result ≡ (place_at self.now.places place).reason }
    {
        self.engine.places.get(place).reason
    }

    /// What is so of a trail at any time, for a proof.
    pub fn facts(&self)
        ensures { IsTrail self.now }
    {
        let _ = &self.engine;
    }
}

// The codes of literals, in order.
fn codes_of(alloc: Global, lits: &[Lit]) -> Result<Vec<u32>, AllocError>
    ensures { IfOk result (λ codes. codes.items ≡ lits.now) }
{
    let mut codes = Vec::with_capacity(alloc, lits.len())?;
    for lit in lits {
        codes.push(lit.code())?;
    }
    Ok(codes)
}
