//! Words of 64 bits: cells of two sets, tests of rows and what is written into them.
ghost use Rattle.std.specs.Prelude.{◌≡◌, ℕ, ◌<◌, ◌==◌, ◌&&◌, ◌||◌, ◌↔◌, true, false, IsTrue, IfSome, slice_index_or};
ghost use Rattle.bit_rows.specs.Rows.{word_bit, has_bit, SomePlace, HasSingle, IsFirst, in_cells, meets_at, all_cells, neither_cell, other_cells};

/// Two sets of places, by their rows.
#[derive(Clone, Copy)]
pub struct Sides<'a> {
    pub left: &'a [u64],
    pub right: &'a [u64],
}

/// Some of the four cells into which two sets divide all places.
#[derive(Clone, Copy)]
pub struct Cells {
    pub left_only: bool,
    pub both: bool,
    pub right_only: bool,
    pub neither: bool,
}

impl Cells {
    /// All four.
    pub fn all() -> Cells
        ensures { result ≡ all_cells }
    {
        Cells {
            left_only: true,
            both: true,
            right_only: true,
            neither: true,
        }
    }

    /// The cell of what is in neither set.
    pub fn neither() -> Cells
        ensures { result ≡ neither_cell }
    {
        Cells {
            left_only: false,
            both: false,
            right_only: false,
            neither: true,
        }
    }

    /// Those that are none of these.
    pub fn others(self) -> Cells
        ensures { result ≡ other_cells self }
    {
        Cells {
            left_only: !self.left_only,
            both: !self.both,
            right_only: !self.right_only,
            neither: !self.neither,
        }
    }

    // The bits of two words that are in the cells.
    pub(crate) fn word(self, left: u64, right: u64) -> u64
        ensures { (i : ℕ) → i < 64 → word_bit result i ≡ in_cells self (word_bit left i) (word_bit right i) }
    {
        if_set(self.left_only, left & !right)
            | if_set(self.both, left & right)
            | if_set(self.right_only, !left & right)
            | if_set(self.neither, !left & !right)
    }
}

// A word, or none of its bits.
fn if_set(set: bool, word: u64) -> u64
    ensures { (i : ℕ) → word_bit result i ≡ (set && word_bit word i) }
{
    if set { word } else { 0 }
}

// The word at a place of a row, without bits past its end.
pub(crate) fn word_at(row: &[u64], i: usize) -> u64
    ensures { result ≡ slice_index_or row.now i 0 }
{
    match row.get(i) {
        Some(word) => *word,
        None => 0,
    }
}

// Whether a word has a bit at a place.
fn has(word: u64, place: usize) -> bool
    requires { place < 64 }
    ensures { result ≡ word_bit word place }
{
    (word >> place) & 1 == 1
}

/// Whether a row has a bit at a place.
pub fn has_bit(row: &[u64], place: usize) -> bool
    ensures { result ≡ has_bit row.now place }
{
    has(word_at(row, place / 64), place % 64)
}

/// A word with one more bit.
pub fn with_bit(word: u64, place: usize) -> u64
    requires { place < 64 }
    ensures { (i : ℕ) → i < 64 → word_bit result i ≡ (word_bit word i || (i == place)) }
{
    word | 1 << place
}

// Whether a word has one bit at most.
fn is_single(word: u64) -> bool
    ensures { result ≡ true → (i j : ℕ) → i < 64 → j < 64 → word_bit word i ≡ true → word_bit word j ≡ true → i ≡ j }
{
    word == 0 || word == 1 << word.trailing_zeros()
}

/// Whether a row has one place at most.
pub fn has_single(row: &[u64]) -> bool
    ensures { result ≡ true → HasSingle row.now }
{
    let mut found = false;
    for word in row {
        if *word != 0 {
            if found || !is_single(*word) {
                return false;
            }
            found = true;
        }
    }
    true
}

/// Whether two rows have a place in common that two sets have in one of some cells.
// Most callers know the cells, and the loop is much shorter for them.
#[inline(always)]
pub fn meets(one: &[u64], other: &[u64], sides: &Sides, cells: Cells) -> bool
    ensures { IsTrue result ↔ SomePlace (meets_at one.now other.now sides.now.left.now sides.now.right.now cells) }
{
    for i in 0..one.len() {
        let common = one[i] & word_at(other, i);
        if common & cells.word(word_at(sides.left, i), word_at(sides.right, i)) != 0 {
            return true;
        }
    }
    false
}

/// Whether two rows have a place in common.
pub fn have_common(one: &[u64], other: &[u64]) -> bool
    ensures { IsTrue result ↔ SomePlace (λ k. has_bit one.now k && has_bit other.now k) }
{
    let sides = Sides {
        left: one,
        right: other,
    };
    meets(one, other, &sides, Cells::all())
}

/// Whether a row's places are all in another.
pub fn is_inside(one: &[u64], other: &[u64]) -> bool
    ensures { IsTrue result ↔ ((k : ℕ) → has_bit one.now k ≡ true → has_bit other.now k ≡ true) }
{
    let sides = Sides {
        left: other,
        right: other,
    };
    !meets(one, one, &sides, Cells::neither())
}

/// The first place of a row.
pub fn first_place(row: &[u64]) -> Option<usize>
    ensures { IfSome result (IsFirst row.now) }
{
    for (i, word) in row.iter().enumerate() {
        if *word != 0 {
            let from = i.checked_mul(64)?;
            let place = from.checked_add(word.trailing_zeros() as usize)?;
            return Some(place);
        }
    }
    None
}
