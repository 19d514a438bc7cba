//! Positions: lists of relations, ordered lexicographically, a prefix first.

ghost use Rattle.std.specs.Prelude.{◌≡◌, ◌==◌, ◌↔◌, ◌<◌, List, [], ◌∷◌, ◌++◌, length, slice_get, IsNone, IfSome, IfNone, IfOk, OnErr, OnOk};
ghost use Rattle.rcc5_core.specs.Order.{position_cmp};

use crate::Rel;
use std::alloc::{AllocError, Global};
use std::cmp::Ordering;
use std::marker::Model;

/// A list of relations, seen as that list: a prefix of a table, or a whole one.
#[derive(Debug, Drop)]
pub struct Position {
    rels: Vec<Rel>,
}

impl Model for Position {
    ghost use Rattle.std.specs.Prelude.{List};
    ghost use Rattle.rcc5_core.specs.declared.Rel.{Rel};

    ghost Value = { List Rel };

    ghost view = { λ p. p.rels.items };
}

impl Position {
    /// The empty position.
    pub fn new(alloc: Global) -> Position
        ensures { result ≡ [] }
    {
        Position {
            rels: Vec::new(alloc),
        }
    }

    pub fn len(&self) -> usize
        ensures { result ≡ length self.now }
    {
        self.rels.len()
    }

    pub fn is_empty(&self) -> bool
        ensures { result ≡ (length self.now == 0) }
    {
        self.rels.is_empty()
    }

    /// The relations, in order.
    pub fn rels(&self) -> &[Rel]
        ensures { result.now ≡ self.now }
    {
        &self.rels
    }

    /// The relation at a place.
    pub fn at(&self, place: usize) -> Rel
        requires { place < length self.now }
        ensures { slice_get self.now place ≡ Some result }
    {
        self.rels[place]
    }

    /// Adds a relation at the end.
    pub fn push(&mut self, rel: Rel) -> Result<(), AllocError>
        ensures ok { OnOk result (self.new ≡ self.old ++ rel ∷ []) }
        ensures err { OnErr result (self.new ≡ self.old) }
    {
        self.rels.push(rel)?;
        Ok(())
    }

    /// Takes the last relation off.
    pub fn pop(&mut self) -> Option<Rel>
        ensures none { IsNone result ↔ (self.old ≡ []) }
        ensures some { IfSome result (λ rel. self.old ≡ self.new ++ rel ∷ []) }
        ensures empty { IfNone result (self.new ≡ self.old) }
    {
        self.rels.pop()
    }

    /// Which position comes first: lexicographic by the order of relations, a prefix first.
    pub fn compare(&self, other: &Position) -> Ordering
        ensures { result ≡ position_cmp self.now other.now }
    {
        self.rels.as_slice().cmp(other.rels.as_slice())
    }

    /// A second position of the same relations.
    pub fn copy(&self, alloc: Global) -> Result<Position, AllocError>
        ensures { IfOk result (λ copy. copy ≡ self.now) }
    {
        Ok(Position {
            rels: Vec::from_slice(alloc, &self.rels)?,
        })
    }
}
