//! What words say of the regions of two sets: the cells that they leave, and the regions that are to have a place.
ghost use Rattle.std.specs.Prelude.{◌≡◌, ◌↔◌, Bool, true, IsTrue};
ghost use Rattle.bit_rows.specs.Rows.{has_bit, in_cells};
ghost use Rattle.world_model.specs.Alive.{lies_by, avoids_by};
ghost use Rattle.point_frames.specs.Frames.{is_occupied, IsRegionMet, cell_of, AreSeen, HasEmpty};

use bit_rows::{Cells, Sides, meets};
use rcc5_core::{Occupancy, Region, Regions};

// The cell of a region.
pub(crate) fn region_cell(region: Region) -> Cells
    ensures { (left right : Bool) → in_cells result left right ≡ lies_by region left right }
{
    let (left_only, both, right_only) = match region {
        Region::LeftOnly => (true, false, false),
        Region::Both => (false, true, false),
        Region::RightOnly => (false, false, true),
    };
    Cells {
        left_only,
        both,
        right_only,
        neither: false,
    }
}

// The cells that words about two sets leave.
pub(crate) fn kept_cells(words: Regions) -> Cells
    ensures { (left right : Bool) → in_cells result left right ≡ avoids_by words left right }
{
    Cells {
        left_only: words.left_only != Occupancy::Empty,
        both: words.both != Occupancy::Empty,
        right_only: words.right_only != Occupancy::Empty,
        neither: true,
    }
}

// Whether words say of a region that it is occupied.
pub(crate) fn is_occupied(words: Regions, region: Region) -> bool
    ensures { result ≡ is_occupied words region }
{
    words.at(region) == Occupancy::Occupied
}

// Whether a region has a place of a row, if it has to.
pub(crate) fn is_region_met(row: &[u64], sides: &Sides, words: Regions, region: Region) -> bool
    ensures { IsTrue result ↔ IsRegionMet words (has_bit sides.now.left.now) (has_bit sides.now.right.now) (has_bit row.now) region }
{
    !is_occupied(words, region) || meets(row, row, sides, region_cell(region))
}

// The cells of two sets that have a place of a row, and the one outside both.
pub(crate) fn cells_with(row: &[u64], sides: &Sides) -> Cells
    ensures { AreSeen (has_bit row.now) (has_bit sides.now.left.now) (has_bit sides.now.right.now) result }
{
    Cells {
        left_only: meets(row, row, sides, region_cell(Region::LeftOnly)),
        both: meets(row, row, sides, region_cell(Region::Both)),
        right_only: meets(row, row, sides, region_cell(Region::RightOnly)),
        neither: true,
    }
}

// Whether a region is one of some cells.
fn has_region(cells: Cells, region: Region) -> bool
    ensures { result ≡ cell_of cells region }
{
    match region {
        Region::LeftOnly => cells.left_only,
        Region::Both => cells.both,
        Region::RightOnly => cells.right_only,
    }
}

// Whether a region is one of some cells, if words say that it is occupied.
fn has_if_occupied(words: Regions, cells: Cells, region: Region) -> bool
    ensures { IsTrue result ↔ (is_occupied words region ≡ true → cell_of cells region ≡ true) }
{
    !is_occupied(words, region) || has_region(cells, region)
}

// Whether each region that words say is occupied is one of some cells.
pub(crate) fn has_occupied(words: Regions, cells: Cells) -> bool
    ensures { IsTrue result ↔ ((region : Region) → is_occupied words region ≡ true → cell_of cells region ≡ true) }
{
    if !has_if_occupied(words, cells, Region::LeftOnly) {
        return false;
    }
    if !has_if_occupied(words, cells, Region::Both) {
        return false;
    }
    has_if_occupied(words, cells, Region::RightOnly)
}

// Whether some region that words say is empty is one of some cells.
pub(crate) fn has_empty(words: Regions, cells: Cells) -> bool
    ensures { IsTrue result ↔ HasEmpty words cells }
{
    (words.left_only == Occupancy::Empty && cells.left_only)
        || (words.both == Occupancy::Empty && cells.both)
        || (words.right_only == Occupancy::Empty && cells.right_only)
}
