//! A row of bits, changed one by one.
use bit_rows::has_bit;
use std::alloc::{AllocError, Global};

/// Bits by their places. Past its end none is set.
#[derive(Drop)]
pub(crate) struct Row {
    words: Vec<u64>,
}

impl Row {
    // With room for so many bits, none of them set.
    pub(crate) fn new(alloc: Global, count: usize) -> Result<Row, AllocError> {
        let words = vec![in alloc; 0; count / 64 + 1]?;
        Ok(Row { words })
    }

    pub(crate) fn words(&self) -> &[u64] {
        &self.words
    }

    // The word at a place, without bits past the end.
    pub(crate) fn word(&self, at: usize) -> u64 {
        self.words.get(at).copied().unwrap_or(0)
    }

    pub(crate) fn has(&self, place: u32) -> bool {
        has_bit(&self.words, place as usize)
    }

    pub(crate) fn set(&mut self, at: usize) {
        if let Some(word) = self.words.get_mut(at / 64) {
            *word |= 1 << (at % 64);
        }
    }

    pub(crate) fn unset(&mut self, at: usize) {
        if let Some(word) = self.words.get_mut(at / 64) {
            *word &= !(1 << (at % 64));
        }
    }

    pub(crate) fn clear(&mut self) {
        for word in self.words.iter_mut() {
            *word = 0;
        }
    }
}
