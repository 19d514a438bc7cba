//! A merged taxonomy as a value.

ghost use Rattle.std.specs.Prelude.{◌≡◌, ◌<◌, [], length, map, slice_index_or};

use std::marker::Model;

/// Classes, each as the list of its concepts.
#[derive(Drop)]
pub struct Classes {
    lists: Vec<Vec<u32>>,
}

impl Model for Classes {
    ghost use Rattle.std.specs.Prelude.{ℕ, List, map};

    ghost Value = { List (List ℕ) };

    ghost view = { λ c. map (λ v. v.items) c.lists.items };
}

impl Classes {
    pub fn new(lists: Vec<Vec<u32>>) -> Classes
        ensures { result ≡ map (λ v. v.items) lists.items }
    {
        Classes { lists }
    }

    pub fn count(&self) -> usize
        ensures { result ≡ length self.now }
    {
        self.lists.len()
    }

    /// The concepts of the class at a place.
    pub fn class(&self, place: usize) -> &[u32]
        requires { place < length self.now }
        ensures { result.now ≡ slice_index_or self.now place [] }
    {
        self.lists[place].as_slice()
    }
}

/// Pairs of numbers, in order.
#[derive(Drop)]
pub struct NumberPairs {
    list: Vec<(u32, u32)>,
}

impl Model for NumberPairs {
    ghost use Rattle.std.specs.Prelude.{ℕ, List};

    ghost Value = { List (ℕ × ℕ) };

    ghost view = { λ p. p.list.items };
}

impl NumberPairs {
    pub fn new(list: Vec<(u32, u32)>) -> NumberPairs
        ensures { result ≡ list.items }
    {
        NumberPairs { list }
    }

    pub fn list(&self) -> &[(u32, u32)]
        ensures { result.now ≡ self.now }
    {
        &self.list
    }
}

/// What a table makes of all taxonomies together.
#[derive(Drop)]
pub struct MergedTaxonomy {
    /// Concepts that are equal, ascending; the classes by their leaders. A class's number is its place and 1.
    pub classes: Classes,
    /// The number of a class and of one that it is under.
    pub under: NumberPairs,
    /// Pairs of concepts that overlap, in the order of pairs.
    pub splits: NumberPairs,
}
