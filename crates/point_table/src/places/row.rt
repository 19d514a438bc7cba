//! A row of bits, changed one by one.
ghost use Rattle.bit_rows.specs.Rows.{has_bit};
ghost use Rattle.point_table.specs.Places.Places.{IsChanged};
ghost use Rattle.std.specs.Prelude.{OnOk, [], false, length, slice_index_or, true, ℕ, ◌*◌, ◌/◌, ◌<◌, ◌≡◌, ◌≢◌, ◌≤◌};

use bit_rows::{has_bit, with_bit};
use std::alloc::{AllocError, Global};
use std::marker::Model;

/// Bits by their places. Past its end none is set.
#[derive(Drop)]
pub(crate) struct Row {
    words: Vec<u64>,
}

impl Model for Row {
    ghost use Rattle.std.specs.Prelude.{List, ℕ};

    ghost Value = { List ℕ };

    ghost view = { λ s. s.words.items };
}

impl Row {
    pub(crate) fn new(alloc: Global) -> Row
        ensures { result ≡ [] }
    {
        Row {
            words: Vec::new(alloc),
        }
    }

    // How many words it has.
    pub(crate) fn len(&self) -> usize
        ensures { result ≡ length self.now }
    {
        self.words.len()
    }

    // The word at a place, without bits past the end.
    pub(crate) fn word(&self, at: usize) -> u64
        ensures { result ≡ slice_index_or self.now at 0 }
    {
        match self.words.get(at) {
            Some(word) => *word,
            None => 0,
        }
    }

    pub(crate) fn has(&self, place: usize) -> bool
        ensures { result ≡ has_bit self.now place }
    {
        has_bit(&self.words, place)
    }

    // Gives it room for a place.
    pub(crate) fn fit(&mut self, place: usize) -> Result<(), AllocError>
        ensures room { OnOk result (place / 64 < length self.new) }
        ensures same { (k : ℕ) → has_bit self.new k ≡ has_bit self.old k }
        ensures longer { length self.old ≤ length self.new }
    {
        if place / 64 < self.words.len() {
            return Ok(());
        }
        self.words.resize(place / 64 + 1, 0)?;
        Ok(())
    }

    // Sets the bit of a place that it has room for.
    pub(crate) fn set(&mut self, place: usize)
        requires { place / 64 < length self.old }
        ensures set { IsChanged self.old self.new place true }
        ensures len { length self.new ≡ length self.old }
    {
        let word = self.words[place / 64];
        self.words[place / 64] = with_bit(word, place % 64);
    }

    pub(crate) fn unset(&mut self, place: usize)
        ensures unset { IsChanged self.old self.new place false }
        ensures len { length self.new ≡ length self.old }
    {
        if place / 64 < self.words.len() {
            let word = self.words[place / 64];
            self.words[place / 64] = word & !with_bit(0, place % 64);
        }
    }

    // Sets the bit of a place, or not.
    pub(crate) fn assign(&mut self, place: usize, bit: bool) -> Result<(), AllocError>
        ensures ok { OnOk result (IsChanged self.old self.new place bit) }
        ensures others { (k : ℕ) → k ≢ place → has_bit self.new k ≡ has_bit self.old k }
    {
        self.fit(place)?;
        if bit {
            self.set(place);
        } else {
            self.unset(place);
        }
        Ok(())
    }

    // Sets the bits of the first places, for which it has room.
    pub(crate) fn set_below(&mut self, count: usize)
        requires { count ≤ 64 * length self.old }
        ensures set { (k : ℕ) → k < count → has_bit self.new k ≡ true }
        ensures others { (k : ℕ) → count ≤ k → has_bit self.new k ≡ has_bit self.old k }
        ensures len { length self.new ≡ length self.old }
    {
        for place in 0..count {
            self.set(place);
        }
    }

    pub(crate) fn clear(&mut self)
        ensures { self.new ≡ [] }
    {
        self.words.clear();
    }
}
