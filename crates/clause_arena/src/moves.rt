//! Where a compaction brought each clause.
ghost use Rattle.std.specs.Prelude.{◌≡◌, ◌≤◌, [], length, vec_len, OnErr, OnOk};
ghost use Rattle.clause_arena.specs.Movings.{new_ref, pairs_from};

use crate::arena::Arena;
use crate::place::Ref;
use std::alloc::{AllocError, Global};
use std::marker::Model;

/// Where a compaction brought each clause: pairs of an old and a new Ref, with room for as many as were reserved.
#[derive(Drop)]
pub struct Moves {
    pub(crate) table: Vec<Option<Ref>>,
}

impl Model for Moves {
    ghost use Rattle.std.specs.Prelude.{length};
    ghost use Rattle.clause_arena.specs.Movings.{Movings, pairs_from};

    ghost Value = { Movings };

    ghost view = { λ m. record { pairs = pairs_from 0 m.table.items; spare = length m.table.items } };
}

impl Moves {
    /// No pairs, and no room.
    pub fn new(alloc: Global) -> Moves
        ensures pairs { result.pairs ≡ [] }
        ensures spare { result.spare ≡ 0 }
    {
        Moves {
            table: Vec::new(alloc),
        }
    }

    /// Forgets the pairs and makes room for as many as the arena has clauses. Where memory is wanting, the pairs stay.
    pub fn reserve(&mut self, arena: &Arena) -> Result<(), AllocError>
        ensures pairs { OnOk result (self.new.pairs ≡ []) }
        ensures spare { OnOk result (length arena.now ≤ self.new.spare) }
        ensures err { OnErr result (self.new.pairs ≡ self.old.pairs) }
    {
        grow(&mut self.table, arena.count())?;
        empty(&mut self.table);
        Ok(())
    }

    /// Forgets the pairs, and keeps the room.
    pub fn clear(&mut self)
        ensures pairs { self.new.pairs ≡ [] }
        ensures spare { self.new.spare ≡ self.old.spare }
    {
        empty(&mut self.table);
    }

    /// The new Ref of an old one, if there is a pair.
    pub fn moved(&self, old: Ref) -> Option<Ref>
        ensures { result ≡ new_ref self.now.pairs old }
    {
        match self.table.get(old.index()) {
            Some(to) => *to,
            None => None,
        }
    }
}

// Adds empty entries until there are at least as many as asked for.
fn grow(table: &mut Vec<Option<Ref>>, count: usize) -> Result<(), AllocError>
    ensures pairs { pairs_from 0 table.new.items ≡ pairs_from 0 table.old.items }
    ensures room { OnOk result (count ≤ vec_len table.new) }
{
    for _ in table.len()..count {
        table.push(None)?;
    }
    Ok(())
}

// Empties every entry.
fn empty(table: &mut [Option<Ref>])
    ensures { pairs_from 0 table.new ≡ [] }
{
    for to in table.iter_mut() {
        *to = None;
    }
}
