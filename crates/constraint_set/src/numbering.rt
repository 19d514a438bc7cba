//! The pairs of concepts by their numbers.
ghost use Rattle.std.specs.Prelude.{◌≡◌, ℕ, ◌<◌, ◌≤◌, ◌+◌, ◌-◌, ◌*◌, ◌^◌, ◌++◌, length, IfOk, OnOk, slice_index};
ghost use Rattle.world_model.specs.Problem.{pair_count, cross_pairs};
ghost use Rattle.world_model.specs.Node.{pair_at};
ghost use Rattle.constraint_set.specs.Numbers.{with_owners, AscendingOwners, IsBlockEnd, AreBlockEnds, AreStarts, row, cross_row, inside_row, rows};

use crate::limits::MAX_CONCEPTS;
use std::alloc::{AllocError, Global};
use std::marker::Model;

/// The owners of the concepts, with all pairs in their order, and where the rows of each concept begin.
pub(crate) struct Numbering {
    owners: Vec<u32>,
    ends: Vec<u32>,
    crossing: Vec<u32>,
    inside: Vec<u32>,
    numbered: Vec<(u16, u16)>,
    cross: u32,
}

// Written out, so that letting one go is a call.
impl Drop for Numbering {
    fn drop(self) {
        let Numbering {
            owners: _,
            ends: _,
            crossing: _,
            inside: _,
            numbered: _,
            cross: _,
        } = self;
    }
}

impl Model for Numbering {
    ghost use Rattle.std.specs.Prelude.{ℕ, List};
    ghost use Rattle.constraint_set.specs.Numbers.{IsNumbering};

    ghost Value = { List ℕ };

    ghost view = { λ s. s.owners.items };

    ghost invariant = { λ s. IsNumbering s.owners.items s.ends.items s.crossing.items s.inside.items s.numbered.items s.cross };
}

impl Numbering {
    pub(crate) fn new(alloc: Global, owners: Vec<u32>) -> Result<Numbering, AllocError>
        requires few { length owners.items ≤ MAX_CONCEPTS }
        requires ascending { AscendingOwners owners.items }
        ensures { IfOk result (λ s. s ≡ owners.items) }
    {
        let ends = block_ends(alloc, &owners)?;
        let mut numbered = Vec::new(alloc);
        let crossing = add_cross_rows(alloc, &mut numbered, &ends)?;
        let cross = numbered.len() as u32;
        let inside = add_inside_rows(alloc, &mut numbered, &ends)?;
        Ok(Numbering {
            owners,
            ends,
            crossing,
            inside,
            numbered,
            cross,
        })
    }

    pub(crate) fn concept_count(&self) -> u32
        ensures count { result ≡ length self.now }
        ensures few { result ≤ MAX_CONCEPTS }
    {
        self.owners.len() as u32
    }

    pub(crate) fn pair_count(&self) -> u32
        ensures { result ≡ pair_count (with_owners self.now) }
    {
        self.numbered.len() as u32
    }

    pub(crate) fn cross_count(&self) -> u32
        ensures { result ≡ length (cross_pairs (with_owners self.now)) }
    {
        self.cross
    }

    pub(crate) fn owner(&self, concept: u32) -> u32
        requires { concept < length self.now }
        ensures { result ≡ slice_index self.now concept }
    {
        self.owners[concept as usize]
    }

    pub(crate) fn pair_at(&self, pair: u32) -> (u32, u32)
        requires { pair < pair_count (with_owners self.now) }
        ensures { result ≡ pair_at (with_owners self.now) pair }
    {
        let (x, y) = self.numbered[pair as usize];
        (u32::from(x), u32::from(y))
    }

    pub(crate) fn pair_index(&self, x: u32, y: u32) -> u32
        requires order { x < y }
        requires within { y < length self.now }
        ensures at { pair_at (with_owners self.now) result ≡ (x, y) }
        ensures within { result < pair_count (with_owners self.now) }
        ensures only { (k : ℕ) → k < pair_count (with_owners self.now) → pair_at (with_owners self.now) k ≡ (x, y) → k ≡ result }
    {
        let end = self.ends[x as usize];
        if y < end {
            self.inside[x as usize] + (y - x - 1)
        } else {
            self.crossing[x as usize] + (y - end)
        }
    }
}

// The end of each concept's taxonomy: the first concept after it that is of another one.
fn block_ends(alloc: Global, owners: &[u32]) -> Result<Vec<u32>, AllocError>
    requires few { length owners.now ≤ MAX_CONCEPTS }
    requires ascending { AscendingOwners owners.now }
    ensures { IfOk result (λ ends. AreBlockEnds owners.now ends.items) }
{
    let mut ends = Vec::with_capacity(alloc, owners.len())?;
    for concept in 0..owners.len() {
        ends.push(block_end(owners, concept))?;
    }
    Ok(ends)
}

// The first concept after this one that is of another taxonomy.
fn block_end(owners: &[u32], concept: usize) -> u32
    requires few { length owners.now ≤ MAX_CONCEPTS }
    requires ascending { AscendingOwners owners.now }
    requires within { concept < length owners.now }
    ensures { IsBlockEnd owners.now concept result }
{
    let mut end = concept + 1;
    while end < owners.len() && owners[end] == owners[concept] {
        end += 1;
    }
    end as u32
}

// Adds the pairs of a concept with those from one number on and below another.
fn add_row(
    numbered: &mut Vec<(u16, u16)>,
    concept: u32,
    from: u32,
    to: u32,
) -> Result<(), AllocError>
    requires concept { concept < MAX_CONCEPTS }
    requires order { from ≤ to }
    requires to { to ≤ MAX_CONCEPTS }
    ensures { OnOk result (numbered.new.items ≡ numbered.old.items ++ row concept from to) }
{
    for other in from..to {
        numbered.push((concept as u16, other as u16))?;
    }
    Ok(())
}

// Adds the pairs of each concept with those of later taxonomies, and answers where each row begins.
fn add_cross_rows(
    alloc: Global,
    numbered: &mut Vec<(u16, u16)>,
    ends: &[u32],
) -> Result<Vec<u32>, AllocError>
    requires few { length ends.now ≤ MAX_CONCEPTS }
    requires within { (c : ℕ) → c < length ends.now → slice_index ends.now c ≤ length ends.now }
    requires short { length numbered.old.items ≤ 2 ^ 20 }
    ensures numbered { OnOk result (numbered.new.items ≡ numbered.old.items ++ rows (cross_row ends.now) (length ends.now)) }
    ensures starts { IfOk result (λ starts. AreStarts (cross_row ends.now) (length numbered.old.items) (length ends.now) starts.items) }
    ensures grown { OnOk result (length numbered.new.items ≤ length numbered.old.items + MAX_CONCEPTS * length ends.now) }
{
    let count = ends.len();
    let mut starts = Vec::with_capacity(alloc, count)?;
    for concept in 0..count {
        starts.push(numbered.len() as u32)?;
        add_row(numbered, concept as u32, ends[concept], count as u32)?;
    }
    Ok(starts)
}

// Adds the pairs of each concept with the later ones of its taxonomy, and answers where each row begins.
fn add_inside_rows(
    alloc: Global,
    numbered: &mut Vec<(u16, u16)>,
    ends: &[u32],
) -> Result<Vec<u32>, AllocError>
    requires few { length ends.now ≤ MAX_CONCEPTS }
    requires after { (c : ℕ) → c < length ends.now → c < slice_index ends.now c }
    requires within { (c : ℕ) → c < length ends.now → slice_index ends.now c ≤ length ends.now }
    requires short { length numbered.old.items ≤ 2 ^ 20 }
    ensures numbered { OnOk result (numbered.new.items ≡ numbered.old.items ++ rows (inside_row ends.now) (length ends.now)) }
    ensures starts { IfOk result (λ starts. AreStarts (inside_row ends.now) (length numbered.old.items) (length ends.now) starts.items) }
{
    let mut starts = Vec::with_capacity(alloc, ends.len())?;
    for concept in 0..ends.len() {
        starts.push(numbered.len() as u32)?;
        add_row(numbered, concept as u32, concept as u32 + 1, ends[concept])?;
    }
    Ok(starts)
}
