//! What is said of pairs, by their numbers.
ghost use Rattle.std.specs.Prelude.{ℕ, ◌≡◌, ◌<◌, [], ◌∷◌, ◌++◌, length, map, replicate, true, IfOk, OnOk, OnErr, IsTrue};
ghost use Rattle.std.specs.List.{list_all};
ghost use Rattle.world_model.specs.Problem.{concept_count, is_articulation, is_about_pair};
ghost use Rattle.constraint_set.specs.Sets.{mark_of, set_at, Narrows, AreSets, Says, said_by, said_if, kept_statements};

use crate::shape::Shape;
use rcc5_core::RelSet;
use std::alloc::{AllocError, Global};
use std::collections::HashMap;
use std::marker::Model;
use world_model::Articulation;

/// A statement on the relation of two concepts, the lower number first, that is no articulation.
#[derive(Clone, Copy)]
pub(crate) struct Narrowing {
    pub(crate) left: u32,
    pub(crate) right: u32,
    pub(crate) set: RelSet,
}

impl Model for Narrowing {
    ghost use Rattle.world_model.specs.Problem.{Constraint};

    ghost Value = { Constraint };

    ghost view = { λ s. record { left = s.left; right = s.right; set = s.set } };

    ghost inverse = { λ c. record { left = c.left; right = c.right; set = c.set } };
}

/// So many pairs share a mark.
const BLOCK: u32 = 8;

/// For each pair that something is said of, by its number, what all of that has in common.
///
/// Most pairs are asked about often and nothing is said of them: a mark for each block of pairs tells so without a look into the map.
pub(crate) struct Sets {
    by_pair: HashMap<u32, RelSet>,
    marks: Vec<bool>,
}

// Written out, so that letting one go is a call.
impl Drop for Sets {
    fn drop(self) {
        let Sets {
            by_pair: _,
            marks: _,
        } = self;
    }
}

impl Model for Sets {
    ghost use Rattle.std.specs.Prelude.{ℕ, List};
    ghost use Rattle.rcc5_core.specs.declared.RelSet.{RelSet};
    ghost use Rattle.constraint_set.specs.Sets.{AreMarked};

    ghost Value = { List (ℕ × RelSet) };

    ghost view = { λ s. s.by_pair.entries };

    ghost invariant = { λ s. AreMarked s.by_pair.entries s.marks.items };
}

// Marks the block of a pair.
fn mark(marks: &mut Vec<bool>, pair: u32) -> Result<(), AllocError>
    ensures there { OnOk result (IsTrue (mark_of marks.new.items pair)) }
    ensures stay { (k : ℕ) → IsTrue (mark_of marks.old.items k) → IsTrue (mark_of marks.new.items k) }
{
    let block = (pair / BLOCK) as usize;
    if block >= marks.len() {
        marks.resize(block + 1, false)?;
    }
    marks[block] = true;
    Ok(())
}

impl Sets {
    pub(crate) fn new(alloc: Global) -> Sets
        ensures { result ≡ [] }
    {
        Sets {
            by_pair: HashMap::new(alloc),
            marks: Vec::new(alloc),
        }
    }

    // What the articulations with a true flag say.
    pub(crate) fn of_articulations(
        alloc: Global,
        shape: &Shape,
        kept: &[bool],
    ) -> Result<Sets, AllocError>
        requires { length kept.now ≡ length shape.now.articulations }
        ensures { IfOk result (λ sets. AreSets shape.now (kept_statements kept.now shape.now.articulations) sets) }
    {
        let mut sets = Sets::new(alloc);
        for index in 0..shape.articulation_count() {
            sets.say_if_kept(shape, kept[index as usize], shape.articulation(index))?;
        }
        Ok(sets)
    }

    // What the narrowings say.
    pub(crate) fn of_narrowings(
        alloc: Global,
        shape: &Shape,
        narrowings: &[Narrowing],
    ) -> Result<Sets, AllocError>
        requires { IsTrue (list_all (is_about_pair shape.now) narrowings.now) }
        ensures { IfOk result (λ sets. AreSets shape.now narrowings.now sets) }
    {
        let mut sets = Sets::new(alloc);
        for narrowing in narrowings {
            sets.say(shape, narrowing.left, narrowing.right, narrowing.set)?;
        }
        Ok(sets)
    }

    pub(crate) fn at(&self, pair: u32) -> RelSet
        ensures { result ≡ set_at self.now pair }
    {
        let block = (pair / BLOCK) as usize;
        if block >= self.marks.len() || !self.marks[block] {
            return RelSet::all();
        }
        match self.by_pair.get(&pair) {
            Some(set) => *set,
            None => RelSet::all(),
        }
    }

    #[tactic(auto, using(crate::proofs::Saying::says_nothing))]
    fn say_if_kept(
        &mut self,
        shape: &Shape,
        kept: bool,
        articulation: &Articulation,
    ) -> Result<(), AllocError>
        requires { IsTrue (is_articulation shape.now articulation.now) }
        ensures { OnOk result (Says shape.now self.old self.new (said_if kept articulation.now)) }
    {
        if kept {
            self.say_articulation(shape, articulation)
        } else {
            Ok(())
        }
    }

    #[tactic(auto, using(crate::proofs::Saying::says_nothing))]
    fn say_articulation(
        &mut self,
        shape: &Shape,
        articulation: &Articulation,
    ) -> Result<(), AllocError>
        requires { IsTrue (is_articulation shape.now articulation.now) }
        ensures { OnOk result (Says shape.now self.old self.new (said_by articulation.now)) }
    {
        match articulation {
            Articulation::Pair { left, right, set } => self.say(shape, *left, *right, *set),
            Articulation::Sum { .. } => Ok(()),
        }
    }

    fn say(&mut self, shape: &Shape, left: u32, right: u32, set: RelSet) -> Result<(), AllocError>
        requires order { left < right }
        requires within { right < concept_count shape.now }
        ensures says { OnOk result (Says shape.now self.old self.new (record { left = left; right = right; set = set } ∷ [])) }
        ensures same { OnErr result (self.new ≡ self.old) }
    {
        self.meet(shape.pair_index(left, right), set)?;
        Ok(())
    }

    fn meet(&mut self, pair: u32, set: RelSet) -> Result<(), AllocError>
        ensures narrows { OnOk result (Narrows self.old self.new pair set) }
        ensures same { OnErr result (self.new ≡ self.old) }
    {
        let set = self.at(pair).meet(set);
        mark(&mut self.marks, pair)?;
        self.by_pair.insert(pair, set)?;
        Ok(())
    }
}

/// Flags, one for each articulation, with what the kept articulations say of pairs.
#[derive(Drop)]
pub(crate) struct Kept {
    pub(crate) flags: Vec<bool>,
    pub(crate) sets: Sets,
}

impl Kept {
    pub(crate) fn new(alloc: Global, shape: &Shape, kept: &[bool]) -> Result<Kept, AllocError>
        requires { length kept.now ≡ length shape.now.articulations }
        ensures flags { IfOk result (λ k. k.flags.items ≡ kept.now) }
        ensures sets { IfOk result (λ k. AreSets shape.now (kept_statements k.flags.items shape.now.articulations) k.sets) }
    {
        let flags = Vec::from_slice(alloc, kept)?;
        let sets = Sets::of_articulations(alloc, shape, kept)?;
        Ok(Kept { flags, sets })
    }

    // All articulations are kept.
    pub(crate) fn all(alloc: Global, shape: &Shape) -> Result<Kept, AllocError>
        ensures flags { IfOk result (λ k. k.flags.items ≡ map (λ _. true) shape.now.articulations) }
        ensures sets { IfOk result (λ k. AreSets shape.now (kept_statements k.flags.items shape.now.articulations) k.sets) }
    {
        let flags = all_true(alloc, shape.articulation_count() as usize)?;
        let kept = Kept::new(alloc, shape, &flags)?;
        Ok(kept)
    }
}

// So many true flags.
fn all_true(alloc: Global, count: usize) -> Result<Vec<bool>, AllocError>
    ensures { IfOk result (λ flags. flags.items ≡ replicate count true) }
{
    vec![in alloc; true; count]
}

/// Narrowings, with what they say of pairs.
#[derive(Drop)]
pub(crate) struct Narrowed {
    pub(crate) list: Vec<Narrowing>,
    pub(crate) sets: Sets,
}

impl Narrowed {
    pub(crate) fn none(alloc: Global) -> Narrowed
        ensures list { result.list.items ≡ [] }
        ensures sets { result.sets ≡ [] }
    {
        Narrowed {
            list: Vec::new(alloc),
            sets: Sets::new(alloc),
        }
    }

    // These narrowings and one more.
    pub(crate) fn with(
        &self,
        alloc: Global,
        shape: &Shape,
        more: Narrowing,
    ) -> Result<Narrowed, AllocError>
        requires about { IsTrue (list_all (is_about_pair shape.now) self.now.list.items) }
        requires more { IsTrue (is_about_pair shape.now more) }
        ensures list { IfOk result (λ n. n.list.items ≡ self.now.list.items ++ more ∷ []) }
        ensures about { IfOk result (λ n. IsTrue (list_all (is_about_pair shape.now) n.list.items)) }
        ensures sets { IfOk result (λ n. AreSets shape.now n.list.items n.sets) }
    {
        let list = pushed(alloc, &self.list, more)?;
        let sets = Sets::of_narrowings(alloc, shape, &list)?;
        Ok(Narrowed { list, sets })
    }

    // One more narrowing.
    pub(crate) fn add(&mut self, shape: &Shape, more: Narrowing) -> Result<(), AllocError>
        requires { IsTrue (is_about_pair shape.now more) }
        ensures list { OnOk result (self.new.list.items ≡ self.old.list.items ++ more ∷ []) }
        ensures sets { OnOk result (Says shape.now self.old.sets self.new.sets (more ∷ [])) }
        ensures same_list { OnErr result (self.new.list.items ≡ self.old.list.items) }
        ensures same_sets { OnErr result (self.new.sets ≡ self.old.sets) }
    {
        self.list.push(more)?;
        if let Err(refused) = self.sets.say(shape, more.left, more.right, more.set) {
            let _ = self.list.pop();
            return Err(refused);
        }
        Ok(())
    }
}

// A copy of a list, and one more.
fn pushed(alloc: Global, list: &[Narrowing], more: Narrowing) -> Result<Vec<Narrowing>, AllocError>
    ensures { IfOk result (λ longer. longer.items ≡ list.now ++ more ∷ []) }
{
    let mut longer = Vec::from_slice(alloc, list)?;
    longer.push(more)?;
    Ok(longer)
}
