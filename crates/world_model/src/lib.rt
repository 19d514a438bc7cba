//! What the program is about: problems, families of sets, possible worlds and their listing, and what
//! is asked of single points; with the laws that make a search over points right.
//!
//! The notions of problem, maximally informative relation and minimal inconsistent subset are those of
//! Euler/X (Chen and others 2014). That a world's table has the pairs inside a taxonomy too is this
//! project's own choice.
#![tactic(auto)]

ghost use Rattle.std.specs.Prelude.{◌≡◌};

pub mod examples;
mod order_laws;
mod point_laws;

pub use order_laws::{
    listings_join, nodes_are_bounded, one_least_conflict, one_listing, trial_is_right,
};
pub use point_laws::{
    alive_tables_are_worlds, dead_alone_is_dead_below, narrowing_keeps_worlds, pairs_stand_once,
    positions_narrow, prefixes_of_the_alive_are_alive, whole_sets_are_decided,
};
use rcc5_core::RelSet;
use std::marker::Model;

/// Which rules besides is-a hold.
#[derive(Clone, Copy, Debug, PartialEq, Eq)]
pub struct Switches {
    /// No concept is empty.
    pub nonempty: bool,
    /// Two children of one parent have nothing in common.
    pub sibling: bool,
    /// What is in a parent is in one of its children.
    pub coverage: bool,
}

/// The parts of a sum, by the numbers of their concepts.
#[derive(Debug, Drop)]
pub struct Parts {
    list: Vec<u32>,
}

impl Model for Parts {
    ghost use Rattle.std.specs.Prelude.{ℕ, List};

    ghost Value = { List ℕ };

    ghost view = { λ p. p.list.items };
}

impl Parts {
    pub fn new(list: Vec<u32>) -> Parts
        ensures { result ≡ list.items }
    {
        Parts { list }
    }

    pub fn list(&self) -> &[u32]
        ensures { result.now ≡ self.now }
    {
        &self.list
    }
}

/// What an expert says of concepts, which are given by their numbers.
#[derive(Debug, Drop)]
pub enum Articulation {
    /// The relation of the left concept to the right one is in the set. The left has the lower number,
    /// and they are of different taxonomies.
    Pair { left: u32, right: u32, set: RelSet },
    /// The whole is the union of the parts: two or more, all different, none of the whole's taxonomy.
    Sum { whole: u32, parts: Parts },
}
