//! The search back through a trail, from a conflict to the clause that it teaches.
ghost use Rattle.std.specs.Prelude.{◌≡◌, ◌≢◌, ℕ, ◌+◌, ◌-◌, ◌<◌, ◌≤◌, ◌⊎◌, [], ◌∷◌, ◌++◌, true, length, reverse, slice_set, slice_index, slice_index_or, false, Some, None, IfOk, OnOk, MatchOption, slice_get, IsTrue, Contains, All, IsPermutation};
ghost use Rattle.clause_arena.specs.Records.{record_at};
ghost use Rattle.lits_core.specs.Literals.{negation_of, variable_of};
ghost use Rattle.watch_arena.specs.Places.{place_at, place_of, is_false, reason_of};
ghost use Rattle.watch_arena.specs.Trails.{IsTrail, IsConflict, AreInRange};
ghost use Rattle.conflict_clause.specs.Taught.{level_in, IsLearnt, IsClosing};

use crate::analyzer::{Closing, Learnt};
use crate::levels::{false_place, highest_first};
use clause_arena::Ref;
use lits_core::{Bits, Clause, Ids, Lit};
use std::alloc::{AllocError, Global};
use watch_arena::Trail;

// What a search back through a trail has come to.
#[derive(Drop)]
pub(crate) struct Analysis {
    // Which variables were seen, and their list.
    pub(crate) marks: Bits,
    pub(crate) seen: Vec<u32>,
    // The literals of the clause so far.
    pub(crate) lits: Vec<Lit>,
    // The ids of the clauses that were used, the last hint first.
    pub(crate) hints: Vec<u64>,
    // The lowest place to be looked at; the number of places where there is none.
    pub(crate) lowest: usize,
}

impl Analysis {
    ghost use Rattle.conflict_clause.specs.Search.{IsSeenList, IsClear, IsLooking, IsLower, Sees, IsSearch, Finds, IsArranged, is_seen};

    pub(crate) fn new(alloc: Global, variables: u32) -> Result<Analysis, AllocError>
        ensures { IfOk result (λ n. IsClear n variables) }
    {
        Ok(Analysis {
            marks: Bits::new(alloc, variables as usize)?,
            seen: Vec::new(alloc),
            lits: Vec::new(alloc),
            hints: Vec::new(alloc),
            lowest: 0,
        })
    }

    // Marks no variable as seen. The list stays.
    pub(crate) fn clear(&mut self)
        requires { IsSeenList self.old (length self.old.marks) }
        ensures { IsClear self.new (length self.old.marks) }
    {
        unmark(&mut self.marks, &self.seen);
    }

    // Forgets what the last search came to.
    fn begin(&mut self, lowest: usize)
        requires { IsClear self.old (length self.old.marks) }
        ensures marks { self.new.marks ≡ self.old.marks }
        ensures seen { self.new.seen.items ≡ [] }
        ensures lits { self.new.lits.items ≡ [] }
        ensures hints { self.new.hints.items ≡ [] }
        ensures lowest { self.new.lowest ≡ lowest }
    {
        self.seen.clear();
        self.lits.clear();
        self.hints.clear();
        self.lowest = lowest;
    }

    // Marks a variable as seen.
    fn enter(&mut self, variable: u32) -> Result<(), AllocError>
        requires seen_list { IsSeenList self.old (length self.old.marks) }
        requires range { variable < length self.old.marks }
        ensures seen_list { IsSeenList self.new (length self.old.marks) }
        ensures marks { OnOk result (self.new.marks ≡ slice_set self.old.marks variable true) }
        ensures seen { OnOk result (self.new.seen.items ≡ self.old.seen.items ++ variable ∷ []) }
        ensures lits { self.new.lits.items ≡ self.old.lits.items }
        ensures hints { self.new.hints.items ≡ self.old.hints.items }
        ensures lowest { self.new.lowest ≡ self.old.lowest }
    {
        self.seen.push(variable)?;
        self.marks.set(variable as usize, true);
        Ok(())
    }

    // Sees a literal that is false. It is kept where its level is lower than this one; else its place is to be looked at.
    fn see(&mut self, trail: &Trail, lit: Lit, level: u32) -> Result<(), AllocError>
        requires looking { IsLooking trail.now level self.old }
        requires range { variable_of lit < trail.now.variables }
        requires off { (is_seen self.old (variable_of lit) ≡ true) ⊎ IsTrue (is_false trail.now.places lit) }
        ensures seen_list { IsSeenList self.new trail.now.variables }
        ensures looking { OnOk result (IsLooking trail.now level self.new) }
        ensures sees { OnOk result (Sees trail.now level self.old self.new) }
        ensures seen { OnOk result (is_seen self.new (variable_of lit) ≡ true) }
        ensures hints { self.new.hints.items ≡ self.old.hints.items }
    {
        let variable = lit.variable();
        if self.marks.get(variable as usize) {
            return Ok(());
        }
        trail.facts();
        let place = false_place(trail, lit);
        self.enter(variable)?;
        if trail.level_on(place) < level {
            self.lits.push(lit)?;
        } else {
            self.lowest = self.lowest.min(place);
        }
        Ok(())
    }

    // Sees the literals of a clause that are not seen yet: they are false.
    fn see_all(&mut self, trail: &Trail, at: Ref, level: u32) -> Result<(), AllocError>
        requires looking { IsLooking trail.now level self.old }
        requires live { (record_at trail.now.records at).live ≡ true }
        requires off { (lit : ℕ) → Contains (record_at trail.now.records at).lits lit → (is_seen self.old (variable_of lit) ≡ true) ⊎ IsTrue (is_false trail.now.places lit) }
        ensures seen_list { IsSeenList self.new trail.now.variables }
        ensures looking { OnOk result (IsLooking trail.now level self.new) }
        ensures sees { OnOk result (Sees trail.now level self.old self.new) }
        ensures seen { OnOk result ((lit : ℕ) → Contains (record_at trail.now.records at).lits lit → is_seen self.new (variable_of lit) ≡ true) }
        ensures hints { self.new.hints.items ≡ self.old.hints.items }
    {
        trail.facts();
        let arena = trail.arena();
        for k in 0..arena.len_of(at) {
            self.see(trail, Lit::from_code(arena.lit_at(at, k)), level)?;
        }
        Ok(())
    }

    // Uses a clause: sees its literals, and has its id as a hint.
    fn apply(&mut self, trail: &Trail, at: Ref, level: u32) -> Result<(), AllocError>
        requires looking { IsLooking trail.now level self.old }
        requires live { (record_at trail.now.records at).live ≡ true }
        requires off { (lit : ℕ) → Contains (record_at trail.now.records at).lits lit → (is_seen self.old (variable_of lit) ≡ true) ⊎ IsTrue (is_false trail.now.places lit) }
        ensures seen_list { IsSeenList self.new trail.now.variables }
        ensures looking { OnOk result (IsLooking trail.now level self.new) }
        ensures sees { OnOk result (Sees trail.now level self.old self.new) }
        ensures seen { OnOk result ((lit : ℕ) → Contains (record_at trail.now.records at).lits lit → is_seen self.new (variable_of lit) ≡ true) }
        ensures hints { OnOk result (self.new.hints.items ≡ self.old.hints.items ++ (record_at trail.now.records at).id ∷ []) }
    {
        self.see_all(trail, at, level)?;
        self.hints.push(trail.arena().id_of(at))?;
        Ok(())
    }

    // Keeps the negation of a place's literal.
    pub(crate) fn keep(&mut self, lit: Lit) -> Result<(), AllocError>
        ensures marks { self.new.marks ≡ self.old.marks }
        ensures seen { self.new.seen.items ≡ self.old.seen.items }
        ensures hints { self.new.hints.items ≡ self.old.hints.items }
        ensures lowest { self.new.lowest ≡ self.old.lowest }
        ensures lits { OnOk result (self.new.lits.items ≡ self.old.lits.items ++ negation_of lit ∷ []) }
    {
        self.lits.push(lit.negate())?;
        Ok(())
    }

    // Looks at a place. Where its variable was seen, its reason is used; where it has none, the negation of its literal is kept.
    fn look(&mut self, trail: &Trail, place: usize, level: u32) -> Result<(), AllocError>
        requires { IsSearch trail.now level (place + 1) self.old }
        ensures seen_list { IsSeenList self.new trail.now.variables }
        ensures search { OnOk result (IsSearch trail.now level place self.new) }
        ensures finds { OnOk result (Finds trail.now level place self.old self.new) }
    {
        trail.facts();
        let lit = trail.lit_on(place);
        if !self.marks.get(lit.variable() as usize) {
            return Ok(());
        }
        match trail.reason_on(place) {
            Some(at) => {
                self.apply(trail, at, level)?;
                Ok(())
            }
            None => {
                self.keep(lit)?;
                Ok(())
            }
        }
    }

    // Looks at the places below one, from the top down, until so many from the lowest one on are left.
    fn descend(
        &mut self,
        trail: &Trail,
        top: usize,
        left: usize,
        level: u32,
    ) -> Result<(), AllocError>
        requires search { IsSearch trail.now level top self.old }
        requires left { self.old.lowest + left ≤ top }
        ensures seen_list { IsSeenList self.new trail.now.variables }
        ensures search { OnOk result (IsSearch trail.now level (self.new.lowest + left) self.new) }
        ensures finds { OnOk result (Finds trail.now level (self.new.lowest + left) self.old self.new) }
    {
        let mut place = top;
        while place > self.lowest + left {
            place -= 1;
            self.look(trail, place, level)?;
        }
        Ok(())
    }

    // Begins a search from a clause that is false.
    fn start(&mut self, trail: &Trail, at: Ref, level: u32) -> Result<(), AllocError>
        requires clear { IsClear self.old trail.now.variables }
        requires conflict { IsConflict trail.now at }
        ensures seen_list { IsSeenList self.new trail.now.variables }
        ensures search { OnOk result (IsSearch trail.now level (length trail.now.places) self.new) }
        ensures lower { OnOk result ((lit : ℕ) → Contains self.new.lits.items lit → IsLower trail.now level lit) }
        ensures lowest { OnOk result (self.new.lowest ≤ length trail.now.places) }
        ensures some { OnOk result ((lit : ℕ) → Contains (record_at trail.now.records at).lits lit → level ≤ level_in trail.now.places lit → self.new.lowest < length trail.now.places) }
    {
        trail.facts();
        self.begin(trail.place_count());
        self.apply(trail, at, level)?;
        Ok(())
    }

    // Begins a search from the reason of a place, whose literal stays in the clause.
    fn start_below(&mut self, trail: &Trail, place: usize, at: Ref) -> Result<(), AllocError>
        requires clear { IsClear self.old trail.now.variables }
        requires within { place < length trail.now.places }
        requires reason { (place_at trail.now.places place).reason ≡ Some at }
        ensures seen_list { IsSeenList self.new trail.now.variables }
        ensures search { OnOk result (IsSearch trail.now 0 place self.new) }
        ensures only { OnOk result ((lit : ℕ) → Contains self.new.lits.items lit → lit ≡ (place_at trail.now.places place).lit) }
        ensures lowest { OnOk result (self.new.lowest ≤ place) }
    {
        trail.facts();
        let lit = trail.lit_on(place);
        self.begin(place);
        self.enter(lit.variable())?;
        self.lits.push(lit)?;
        self.apply(trail, at, 0)?;
        Ok(())
    }

    // The clause and the hints so far.
    fn closing(&self, alloc: Global) -> Result<Closing, AllocError>
        ensures lits { IfOk result (λ closing. closing.lits ≡ self.now.lits.items) }
        ensures hints { IfOk result (λ closing. closing.hints ≡ reverse self.now.hints.items) }
    {
        let hints = in_order(alloc, &self.hints)?;
        let lits = Clause::from_lits(alloc, &self.lits)?;
        Ok(Closing { lits, hints })
    }

    // The clause of the assumed literals that a false clause rests on.
    pub(crate) fn analyze_final(
        &mut self,
        alloc: Global,
        trail: &Trail,
        at: Ref,
    ) -> Result<Closing, AllocError>
        requires clear { IsClear self.old trail.now.variables }
        requires conflict { IsConflict trail.now at }
        ensures seen_list { IsSeenList self.new trail.now.variables }
        ensures closing { IfOk result (λ closing. IsClosing trail.now None closing.lits closing.hints) }
    {
        trail.facts();
        self.start(trail, at, 0)?;
        self.descend(trail, trail.place_count(), 0, 0)?;
        let closing = self.closing(alloc)?;
        Ok(closing)
    }

    // The clause of the assumed literals that a false literal rests on, by the reason of its negation; that negation stays in the clause.
    pub(crate) fn analyze_final_lit(
        &mut self,
        alloc: Global,
        trail: &Trail,
        lit: Lit,
    ) -> Result<Closing, AllocError>
        requires clear { IsClear self.old trail.now.variables }
        requires false_there { IsTrue (is_false trail.now.places lit) }
        requires implied { reason_of trail.now.places (variable_of lit) ≢ None }
        ensures seen_list { IsSeenList self.new trail.now.variables }
        ensures closing { IfOk result (λ closing. IsClosing trail.now (Some (negation_of lit)) closing.lits closing.hints) }
    {
        trail.facts();
        let place = false_place(trail, lit);
        let Some(at) = trail.reason_on(place) else {
            unreachable!()
        };
        self.start_below(trail, place, at)?;
        self.descend(trail, place, 0, 0)?;
        let closing = self.closing(alloc)?;
        Ok(closing)
    }

    // Puts the negation of the lowest place's literal first, and a literal of the highest level among the others second. Answers that level.
    fn arrange(&mut self, trail: &Trail) -> Result<u32, AllocError>
        requires range { AreInRange self.old.lits.items trail.now.variables }
        requires within { self.old.lowest < length trail.now.places }
        ensures marks { self.new.marks ≡ self.old.marks }
        ensures seen { self.new.seen.items ≡ self.old.seen.items }
        ensures hints { self.new.hints.items ≡ self.old.hints.items }
        ensures arranged { IfOk result (λ back. IsArranged trail.now (negation_of (place_at trail.now.places self.old.lowest).lit) self.old.lits.items self.new.lits.items back) }
    {
        let point = trail.lit_on(self.lowest).negate();
        let back = highest_first(trail, &mut self.lits);
        self.lits.insert(0, point)?;
        Ok(back)
    }

    // The clause of the first unique implication point of a conflict, made shorter.
    pub(crate) fn analyze(
        &mut self,
        alloc: Global,
        trail: &Trail,
        at: Ref,
    ) -> Result<Learnt, AllocError>
        requires clear { IsClear self.old trail.now.variables }
        requires conflict { IsConflict trail.now at }
        requires at_the_level { (lit : ℕ) × Contains (record_at trail.now.records at).lits lit × (level_in trail.now.places lit ≡ trail.now.level) }
        requires level { 0 < trail.now.level }
        ensures seen_list { IsSeenList self.new trail.now.variables }
        ensures learnt { IfOk result (λ learnt. IsLearnt trail.now learnt.lits learnt.hints learnt.back) }
        ensures second { IfOk result (λ learnt. MatchOption (slice_get learnt.lits 1) (learnt.back ≡ 0) (λ lit. level_in trail.now.places lit ≡ learnt.back)) }
    {
        trail.facts();
        let level = trail.level();
        self.start(trail, at, level)?;
        self.descend(trail, trail.place_count(), 1, level)?;
        self.minimize(alloc, trail)?;
        let back = self.arrange(trail)?;
        let Closing { lits, hints } = self.closing(alloc)?;
        Ok(Learnt { lits, hints, back })
    }
}

// Hints in order, from the last one first.
fn in_order(alloc: Global, hints: &[u64]) -> Result<Ids, AllocError>
    ensures { IfOk result (λ ids. ids ≡ reverse hints.now) }
{
    let list = hints.iter().rev().copied().collect(alloc)?;
    Ok(Ids::new(list))
}

// Marks variables as not seen.
fn unmark(marks: &mut Bits, variables: &[u32])
    requires { All (λ variable. variable < length marks.old) variables.now }
    ensures size { length marks.new ≡ length marks.old }
    ensures only { (variable : ℕ) → slice_index_or marks.new variable false ≡ true → slice_index_or marks.old variable false ≡ true }
    ensures none { (variable : ℕ) → Contains variables.now variable → slice_index_or marks.new variable false ≡ false }
{
    for variable in variables {
        marks.set(*variable as usize, false);
    }
}
