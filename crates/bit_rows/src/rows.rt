//! Rows of bits of one width, one after another in one list of words.
ghost use Rattle.std.specs.Prelude.{◌≡◌, ℕ, ◌+◌, ◌*◌, ◌<◌, ◌≤◌, ◌||◌, ◌==◌, false, length, OnOk};
ghost use Rattle.bit_rows.specs.Rows.{has_bit, meets_at, bit_in, IsPushed, IsPut, IsPopped};

use crate::words::{Cells, Sides, with_bit, word_at};
use std::alloc::{AllocError, Global};
use std::marker::Model;

/// So many rows, each of so many words.
#[derive(Drop)]
pub struct Rows {
    words: Vec<u64>,
    width: usize,
    count: usize,
}

impl Model for Rows {
    ghost use Rattle.std.specs.Prelude.{◌≡◌, ◌*◌, length};
    ghost use Rattle.bit_rows.specs.Rows.{BitRows};

    ghost Value = { BitRows };

    ghost view = { λ s. record { count = s.count; width = s.width; words = s.words.items } };

    ghost invariant = { λ s. length s.words.items ≡ s.count * s.width };
}

impl Rows {
    /// No rows.
    pub fn new(alloc: Global, width: usize) -> Rows
        ensures count { result.count ≡ 0 }
        ensures width { result.width ≡ width }
        ensures empty { (r k : ℕ) → bit_in result r k ≡ false }
    {
        Rows {
            words: Vec::new(alloc),
            width,
            count: 0,
        }
    }

    pub fn count(&self) -> usize
        ensures { result ≡ self.now.count }
    {
        self.count
    }

    pub fn width(&self) -> usize
        ensures { result ≡ self.now.width }
    {
        self.width
    }

    /// The words of a row.
    pub fn row(&self, row: usize) -> &[u64]
        requires { row < self.now.count }
        ensures bits { (k : ℕ) → has_bit result.now k ≡ bit_in self.now row k }
        ensures width { length result.now ≡ self.now.width }
    {
        let words = self.words.as_slice();
        let start = row * self.width;
        &words[start..start + self.width]
    }

    /// Adds a row without bits.
    pub fn push_empty(&mut self) -> Result<(), AllocError>
        requires { 0 < self.old.width }
        ensures { OnOk result (IsPushed self.old self.new (λ _. false)) }
    {
        let Some(len) = self.words.len().checked_add(self.width) else {
            return Err(AllocError);
        };
        self.words.resize(len, 0)?;
        self.count += 1;
        Ok(())
    }

    /// Writes into a row what two others have in common in some cells of two sets.
    pub fn write(&mut self, row: usize, one: &[u64], other: &[u64], sides: &Sides, cells: Cells)
        requires row { row < self.old.count }
        requires width { length one.now ≤ self.old.width }
        ensures { IsPut self.old self.new row (meets_at one.now other.now sides.now.left.now sides.now.right.now cells) }
    {
        let start = row * self.width;
        for i in 0..self.width {
            let common = word_at(one, i) & word_at(other, i);
            self.words[start + i] = common
                & cells.word(word_at(sides.left, i), word_at(sides.right, i));
        }
    }

    /// Adds the places of another row to a row.
    pub fn join(&mut self, row: usize, other: &[u64])
        requires row { row < self.old.count }
        requires width { length other.now ≤ self.old.width }
        ensures { IsPut self.old self.new row (λ k. bit_in self.old row k || has_bit other.now k) }
    {
        let start = row * self.width;
        for i in 0..self.width {
            self.words[start + i] |= word_at(other, i);
        }
    }

    /// Adds a copy of a row.
    pub fn push_copy(&mut self, row: &[u64]) -> Result<(), AllocError>
        requires some { 0 < self.old.width }
        requires width { length row.now ≡ self.old.width }
        ensures { OnOk result (IsPushed self.old self.new (has_bit row.now)) }
    {
        self.words.extend_from_slice(row)?;
        self.count += 1;
        Ok(())
    }

    /// Takes the last row away.
    pub fn pop(&mut self)
        requires { 0 < self.old.count }
        ensures { IsPopped self.old self.new }
    {
        self.count -= 1;
        self.words.truncate(self.count * self.width);
    }

    /// Adds a place to a row.
    pub fn set(&mut self, row: usize, place: usize)
        requires row { row < self.old.count }
        requires within { place < 64 * self.old.width }
        ensures { IsPut self.old self.new row (λ k. bit_in self.old row k || (k == place)) }
    {
        let word = row * self.width + place / 64;
        self.words[word] = with_bit(self.words[word], place % 64);
    }

    /// Adds the row of what two others have in common in some cells of two sets.
    pub fn push(
        &mut self,
        one: &[u64],
        other: &[u64],
        sides: &Sides,
        cells: Cells,
    ) -> Result<(), AllocError>
        requires some { 0 < self.old.width }
        requires width { length one.now ≤ self.old.width }
        ensures { OnOk result (IsPushed self.old self.new (meets_at one.now other.now sides.now.left.now sides.now.right.now cells)) }
    {
        self.push_empty()?;
        let last = self.count - 1;
        self.write(last, one, other, sides, cells);
        Ok(())
    }
}
