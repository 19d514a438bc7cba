//! Bases: the open rows that frames share, in their groups.
ghost use Rattle.std.specs.Prelude.{◌≡◌, ℕ, ◌<◌, ◌≤◌, ◌↔◌, IfOk, IsTrue};
ghost use Rattle.bit_rows.specs.Rows.{has_bit};
ghost use Rattle.point_frames.specs.Groups.{AreGrouped, AreMetBelow, IsOpenMet};
ghost use Rattle.point_frames.specs.Joined.{HasFirst};

use crate::groups::{FIRST_OPEN, Group, groups_met, groups_of};
use bit_rows::{Cells, Rows, Sides, meets};
use std::alloc::{AllocError, Global};

/// The rows of a frame as they were when it was made. Its open rows hold for all frames that come of it, and are in groups
/// below a number.
#[derive(Drop)]
pub(crate) struct Base {
    pub(crate) rows: Rows,
    pub(crate) groups: Vec<Group>,
    pub(crate) grouped: usize,
}

/// The first so many of some rows.
pub(crate) fn first_rows(alloc: Global, rows: &Rows, count: usize) -> Result<Rows, AllocError>
    requires some { 0 < rows.now.width }
    requires count { count ≤ rows.now.count }
    ensures { IfOk result (λ first. HasFirst rows.now first count) }
{
    let mut first = Rows::new(alloc, rows.width());
    for row in 0..count {
        first.push_copy(rows.row(row))?;
    }
    Ok(first)
}

// Whether each row from a number on has one of the places that are left, in some cells of two sets.
pub(crate) fn are_met_from(
    rows: &Rows,
    from: usize,
    left: &[u64],
    sides: &Sides,
    cells: Cells,
) -> bool
    ensures { IsTrue result ↔ ((r : ℕ) → from ≤ r → r < rows.now.count → IsOpenMet rows.now (has_bit left.now) (has_bit sides.now.left.now) (has_bit sides.now.right.now) cells r) }
{
    for row in from..rows.count() {
        if !meets(rows.row(row), left, sides, cells) {
            return false;
        }
    }
    true
}

impl Base {
    /// The base of some rows.
    pub(crate) fn new(alloc: Global, rows: Rows) -> Result<Base, AllocError>
        requires { 2 ≤ rows.count }
        ensures rows { IfOk result (λ base. base.rows ≡ rows) }
        ensures grouped { IfOk result (λ base. AreGrouped base.rows base.groups.items base.grouped) }
    {
        match groups_of(alloc, &rows)? {
            Some(groups) => {
                let grouped = rows.count();
                Ok(Base {
                    rows,
                    groups,
                    grouped,
                })
            }
            None => Ok(Base {
                rows,
                groups: Vec::new(alloc),
                grouped: FIRST_OPEN,
            }),
        }
    }

    /// Whether each open row has one of the places that are left, in some cells of two sets.
    pub(crate) fn is_met(&self, left: &[u64], sides: &Sides, cells: Cells) -> bool
        requires { AreGrouped self.now.rows self.now.groups.items self.now.grouped }
        ensures { IsTrue result ↔ AreMetBelow self.now.rows (has_bit left.now) (has_bit sides.now.left.now) (has_bit sides.now.right.now) cells self.now.rows.count }
    {
        groups_met(&self.rows, &self.groups, self.grouped, left, sides, cells)
            && are_met_from(&self.rows, self.grouped, left, sides, cells)
    }
}
