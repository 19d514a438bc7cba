//! The sets of a family as rows of bits.
ghost use Rattle.std.specs.Prelude.{◌≡◌, ◌*◌, ◌<◌, ◌≤◌, All, IfOk, IsTrue, OnOk, length};
ghost use Rattle.std.specs.List.{list_all};
ghost use Rattle.rcc5_core.specs.Relation.{is_in, relation_by, relation_of};
ghost use Rattle.world_model.specs.Family.{set_of};
ghost use Rattle.bit_rows.specs.Rows.{IsPushed};
ghost use Rattle.set_family.specs.Sets.{is_set_below};
ghost use Rattle.wish_family.specs.Showing.{IsShown};

use bit_rows::{Rows, have_common, is_inside};
use rcc5_core::Rel;
use set_family::Family;
use std::alloc::{AllocError, Global};

/// A row for each set of a family, by which the relation of two is told in a few words.
#[derive(Drop)]
pub struct FamilyRows {
    pub(crate) rows: Rows,
}

// The relation of two sets, by the regions that have an element.
fn rel_by(left_only: bool, both: bool, right_only: bool) -> Rel
    ensures { result ≡ relation_by left_only both right_only }
{
    match (left_only, both, right_only) {
        (false, _, false) => Rel::Equals,
        (false, _, true) => Rel::IncludedIn,
        (true, _, false) => Rel::Includes,
        (true, false, true) => Rel::Disjoint,
        (true, true, true) => Rel::Overlaps,
    }
}

// The words of a row that has places for so many numbers.
fn width_for(count: u32) -> usize
    ensures some { 0 < result }
    ensures room { count ≤ 64 * result }
{
    count as usize / 64 + 1
}

// Adds the row of a set.
fn push_set(rows: &mut Rows, set: &[u32]) -> Result<(), AllocError>
    requires some { 0 < rows.old.width }
    requires room { All (λ x. x < 64 * rows.old.width) set.now }
    ensures { OnOk result (IsPushed rows.old rows.new (λ k. is_in k set.now)) }
{
    rows.push_empty()?;
    let last = rows.count() - 1;
    for n in 0..set.len() {
        rows.set(last, set[n] as usize);
    }
    Ok(())
}

impl FamilyRows {
    /// The rows of a family.
    pub fn new(alloc: Global, family: &Family) -> Result<FamilyRows, AllocError>
        requires { IsTrue (list_all (is_set_below family.now.universe) family.now.sets) }
        ensures { IfOk result (IsShown family.now) }
    {
        let mut rows = Rows::new(alloc, width_for(family.universe()));
        for concept in 0..family.count() {
            push_set(&mut rows, family.set(concept))?;
        }
        Ok(FamilyRows { rows })
    }

    /// The relation of two sets of the family, by the numbers of their concepts.
    pub fn rel(&self, family: &Family, left: u32, right: u32) -> Rel
        requires shown { IsShown family.now self.now }
        requires left { left < length family.now.sets }
        requires right { right < length family.now.sets }
        ensures { result ≡ relation_of (set_of family.now left) (set_of family.now right) }
    {
        if (left as usize) < self.rows.count() && (right as usize) < self.rows.count() {
            let one = self.rows.row(left as usize);
            let other = self.rows.row(right as usize);
            return rel_by(
                !is_inside(one, other),
                have_common(one, other),
                !is_inside(other, one),
            );
        }
        family.relation(left, right)
    }
}
