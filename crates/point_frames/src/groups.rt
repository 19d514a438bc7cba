//! Open rows in groups that have a place in common: where that place is left, all of them are met, and none is looked at.
ghost use Rattle.std.specs.Prelude.{◌≡◌, ◌&&◌, ◌<◌, ◌≤◌, ◌↔◌, true, All, IfOk, IfSome, IsTrue};
ghost use Rattle.bit_rows.specs.Rows.{has_bit, bit_in, in_cells};
ghost use Rattle.point_frames.specs.Groups.{AreGrouped, AreMetBelow, AreOpen, AreSplit, HasOpen, IsGroup, IsOpenMet};

use bit_rows::{Cells, Rows, Sides, has_bit, meets};
use std::alloc::{AllocError, Global};

/// The number of a frame's first open row, of which one place has to stay.
pub(crate) const FIRST_OPEN: usize = 2;

/// A place, and rows that have it.
#[derive(Drop)]
pub(crate) struct Group {
    pub(crate) place: usize,
    pub(crate) rows: Vec<usize>,
}

// Whether the cell of what is in the left one of two sets or not, and in the right one or not, is one of some cells.
fn has_cell(cells: Cells, left: bool, right: bool) -> bool
    ensures { result ≡ in_cells cells left right }
{
    if left {
        if right { cells.both } else { cells.left_only }
    } else if right {
        cells.right_only
    } else {
        cells.neither
    }
}

/// Whether a row has a place, in some cells of two sets.
pub(crate) fn has_place(row: &[u64], sides: &Sides, cells: Cells, place: usize) -> bool
    ensures { result ≡ (has_bit row.now place && in_cells cells (has_bit sides.now.left.now place) (has_bit sides.now.right.now place)) }
{
    if !has_bit(row, place) {
        return false;
    }
    has_cell(
        cells,
        has_bit(sides.left, place),
        has_bit(sides.right, place),
    )
}

// The numbers of all open rows.
fn open_rows(alloc: Global, rows: &Rows) -> Result<Vec<usize>, AllocError>
    requires { 2 ≤ rows.now.count }
    ensures open { IfOk result (λ list. AreOpen rows.now.count list.items) }
    ensures all { IfOk result (λ list. HasOpen rows.now.count list.items) }
{
    let mut list = Vec::new(alloc);
    for row in FIRST_OPEN..rows.count() {
        list.push(row)?;
    }
    Ok(list)
}

// A place of a row that is left, if it has one.
fn place_left(rows: &Rows, row: usize) -> Option<usize>
    requires two { 2 ≤ rows.now.count }
    requires row { row < rows.now.count }
    ensures { IfSome result (λ place. bit_in rows.now row place ≡ true) }
{
    let words = rows.row(row);
    let left = rows.row(0);
    for (number, word) in words.iter().enumerate() {
        let common = word & left.get(number)?;
        if common != 0 {
            let place = number
                .checked_mul(64)?
                .checked_add(common.trailing_zeros() as usize)?;
            return Some(place).filter(|place| has_bit(words, *place));
        }
    }
    None
}

// Those of some open rows that have a place, and the others.
fn split(
    alloc: Global,
    rows: &Rows,
    list: &[usize],
    place: usize,
) -> Result<(Vec<usize>, Vec<usize>), AllocError>
    requires { AreOpen rows.now.count list.now }
    ensures { IfOk result (λ both. AreSplit rows.now list.now place both.0.items both.1.items) }
{
    let mut with = Vec::new(alloc);
    let mut without = Vec::new(alloc);
    for row in list {
        if has_bit(rows.row(*row), place) {
            with.push(*row)?;
        } else {
            without.push(*row)?;
        }
    }
    Ok((with, without))
}

/// Groups of all open rows, if each has a place that is left.
pub(crate) fn groups_of(alloc: Global, rows: &Rows) -> Result<Option<Vec<Group>>, AllocError>
    requires { 2 ≤ rows.now.count }
    ensures { IfOk result (λ found. IfSome found (λ groups. AreGrouped rows.now groups.items rows.now.count)) }
{
    let mut groups = Vec::new(alloc);
    let mut rest = open_rows(alloc, rows)?;
    while rest.len() > 0 {
        let Some(place) = place_left(rows, rest[0]) else {
            return Ok(None);
        };
        let (with, without) = split(alloc, rows, &rest, place)?;
        groups.push(Group { place, rows: with })?;
        rest = without;
    }
    Ok(Some(groups))
}

// Whether each of some open rows has one of the places that are left, in some cells of two sets.
fn are_met(rows: &Rows, list: &[usize], left: &[u64], sides: &Sides, cells: Cells) -> bool
    requires { AreOpen rows.now.count list.now }
    ensures { IsTrue result ↔ All (IsOpenMet rows.now (has_bit left.now) (has_bit sides.now.left.now) (has_bit sides.now.right.now) cells) list.now }
{
    for row in list {
        if !meets(rows.row(*row), left, sides, cells) {
            return false;
        }
    }
    true
}

// Whether each row of a group has one of the places that are left, in some cells of two sets.
fn group_met(rows: &Rows, group: &Group, left: &[u64], sides: &Sides, cells: Cells) -> bool
    requires { IsGroup rows.now rows.now.count group.now }
    ensures { IsTrue result ↔ All (IsOpenMet rows.now (has_bit left.now) (has_bit sides.now.left.now) (has_bit sides.now.right.now) cells) group.now.rows.items }
{
    if has_place(left, sides, cells, group.place) {
        return true;
    }
    are_met(rows, &group.rows, left, sides, cells)
}

/// Whether each open row below a number has one of the places that are left, in some cells of two sets, by their groups.
pub(crate) fn groups_met(
    rows: &Rows,
    groups: &[Group],
    count: usize,
    left: &[u64],
    sides: &Sides,
    cells: Cells,
) -> bool
    requires { AreGrouped rows.now groups.now count }
    ensures { IsTrue result ↔ AreMetBelow rows.now (has_bit left.now) (has_bit sides.now.left.now) (has_bit sides.now.right.now) cells count }
{
    for group in groups {
        if !group_met(rows, group, left, sides, cells) {
            return false;
        }
    }
    true
}
