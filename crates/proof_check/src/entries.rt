//! The derived clauses by their ids.

ghost use Rattle.std.specs.Prelude.{◌≡◌, ◌<◌, ◌==◌, ◌||◌, not, ℕ, IfOk, [], ◌∷◌, ◌++◌, vec_len, slice_set, OnOk, OnErr, option_copied};
ghost use Rattle.lits_core.specs.Derivation.{derived_clause, without_id, forget_fault};
ghost use Rattle.proof_check.specs.Check.{Gives};
ghost use Rattle.std.specs.Ordering.{nat_cmp};
ghost use Rattle.std.specs.BTreeSet.{contains};

use crate::places::Places;
use lits_core::{Clause, LineFault, Lit};
use std::alloc::{AllocError, Global};
use std::collections::BTreeSet;
use std::marker::Model;

/// Clauses with ids, no two of which are the same, seen as the list of these in the order they came. Each has a slot,
/// which is left empty once the clause is taken out, and the slots are found by id.
#[derive(Drop)]
pub struct Entries {
    slots: Vec<Option<(u64, Clause)>>,
    places: Places,
}

impl Model for Entries {
    ghost use Rattle.std.specs.Prelude.{ℕ, List};
    ghost use Rattle.proof_check.specs.Slots.{filled, PlacesAre};

    ghost Value = { List (ℕ × List ℕ) };

    ghost view = { λ entries. filled entries.slots.items };

    ghost invariant = { λ entries. PlacesAre entries.slots.items entries.places };
}

impl Entries {
    pub fn new(alloc: Global) -> Self
        ensures { result ≡ [] }
    {
        Entries {
            slots: Vec::new(alloc),
            places: Places::new(alloc),
        }
    }

    pub fn find(&self, id: u64) -> Option<&[Lit]>
        ensures { option_copied result ≡ derived_clause self.now id }
    {
        let place = self.places.get(id)?;
        match &self.slots[place] {
            Some(entry) => Some(entry.1.lits()),
            None => None,
        }
    }

    pub fn push(&mut self, id: u64, lits: Clause) -> Result<(), AllocError>
        requires { derived_clause self.old id ≡ None }
        ensures ok { OnOk result (self.new ≡ self.old ++ (id, lits) ∷ []) }
        ensures err { OnErr result (self.new ≡ self.old) }
    {
        let place = self.slots.len();
        self.slots.reserve(1)?;
        self.places.insert(id, place)?;
        self.slots.push_reserved(Some((id, lits)));
        Ok(())
    }

    pub fn remove(&mut self, id: u64)
        ensures { self.new ≡ without_id self.old id }
    {
        if let Some(place) = self.places.remove(id) {
            empty_slot(&mut self.slots, place);
        }
    }

    /// Takes all out.
    pub fn clear(&mut self)
        ensures { self.new ≡ [] }
    {
        self.slots.clear();
        self.places.clear();
    }

    /// Whether the ids can be forgotten one after the other.
    pub fn can_forget(&self, alloc: Global, ids: &[u64]) -> Result<(), LineFault>
        ensures { Gives (forget_fault self.now ids.now) result }
    {
        let _ = &self.slots;
        let mut seen = BTreeSet::new(alloc);
        for id in ids {
            let found = self.find(*id).is_some();
            let new = add_new(&mut seen, *id)?;
            if !found || !new {
                return Err(LineFault::UnknownHint);
            }
        }
        Ok(())
    }
}

/// Lets go of the entry in a slot.
fn empty_slot(slots: &mut Vec<Option<(u64, Clause)>>, place: usize)
    requires { place < vec_len slots.old }
    ensures { slots.new.items ≡ slice_set slots.old.items place None }
{
    slots[place] = None;
}

/// Adds an id, and says whether it was new.
fn add_new(seen: &mut BTreeSet<u64>, id: u64) -> Result<bool, AllocError>
    ensures new { IfOk result (λ new. new ≡ not (contains nat_cmp seen.old id)) }
    ensures added { OnOk result ((q : ℕ) → contains nat_cmp seen.new q ≡ (id == q || contains nat_cmp seen.old q)) }
{
    let new = seen.insert(id)?;
    Ok(new)
}
