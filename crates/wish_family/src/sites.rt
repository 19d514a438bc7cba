//! Regions of two concepts, and their points by words.
use bit_rows::{Rows, Sides};
use rcc5_core::{Occupancy, Region, Regions};

/// The regions of a pair.
pub(crate) const REGIONS: [Region; 3] = [Region::LeftOnly, Region::Both, Region::RightOnly];

/// A region of two concepts.
#[derive(Clone, Copy)]
pub(crate) struct Site {
    pub(crate) left: u32,
    pub(crate) right: u32,
    pub(crate) region: Region,
}

// A row, or none of its bits past the last one.
fn row_of(rows: &Rows, place: u32) -> &[u64] {
    if (place as usize) < rows.count() {
        rows.row(place as usize)
    } else {
        &[]
    }
}

// The rows of two concepts.
pub(crate) fn sides_of(rows: &Rows, left: u32, right: u32) -> Sides<'_> {
    Sides {
        left: row_of(rows, left),
        right: row_of(rows, right),
    }
}

// The word at a place of a row, without bits past its end.
pub(crate) fn word_at(row: &[u64], i: usize) -> u64 {
    match row.get(i) {
        Some(word) => *word,
        None => 0,
    }
}

// What of two words lies in a region.
fn region_word(region: Region, left: u64, right: u64) -> u64 {
    match region {
        Region::LeftOnly => left & !right,
        Region::Both => left & right,
        Region::RightOnly => !left & right,
    }
}

// A word, or none of its bits.
fn if_empty(word: Occupancy, bits: u64) -> u64 {
    if word == Occupancy::Empty { bits } else { 0 }
}

// What of two words lies in regions that are empty.
fn empty_word(words: Regions, left: u64, right: u64) -> u64 {
    if_empty(words.left_only, left & !right)
        | if_empty(words.both, left & right)
        | if_empty(words.right_only, !left & right)
}

// The first place of a word's row that a word has.
fn place_in(word: u64, i: usize) -> Option<usize> {
    let from = i.checked_mul(64)?;
    from.checked_add(word.trailing_zeros() as usize)
}

// A place in a region that is in one row and not in another.
pub(crate) fn place_without(
    sides: &Sides,
    region: Region,
    row: &[u64],
    other: &[u64],
) -> Option<usize> {
    for i in 0..row.len() {
        let word = region_word(region, word_at(sides.left, i), word_at(sides.right, i));
        let kept = word & row[i] & !word_at(other, i);
        if kept != 0 {
            return place_in(kept, i);
        }
    }
    None
}

// Makes a row of what another has in regions that are empty, and tells whether there is something.
pub(crate) fn put_empty(into: &mut [u64], sides: &Sides, words: Regions, row: &[u64]) -> bool {
    let mut some = false;
    for i in 0..into.len() {
        let word = empty_word(words, word_at(sides.left, i), word_at(sides.right, i));
        into[i] = word & word_at(row, i);
        some |= into[i] != 0;
    }
    some
}

// Takes what another row has out of a row.
pub(crate) fn take_out(row: &mut [u64], other: &[u64]) {
    for i in 0..row.len() {
        row[i] &= !word_at(other, i);
    }
}
