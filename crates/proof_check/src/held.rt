//! The literals that a derive line holds false.

ghost use Rattle.std.specs.Prelude.{◌≡◌, ◌==◌, ◌||◌, ℕ, false, [], ◌∷◌, slice_set, IfOk, OnOk, OnErr};
ghost use Rattle.lits_core.specs.Derivation.{has_lit, SameLits};
ghost use Rattle.proof_check.specs.Marks.{is_marked};

use lits_core::Lit;
use std::alloc::{AllocError, Global};
use std::collections::BTreeSet;
use std::marker::Model;

/// A set of literals, seen as a list of them. Literals whose codes are below the length of the table are marked in
/// it, and the others are kept in order.
#[derive(Drop)]
pub struct Held {
    lits: Vec<Lit>,
    table: Vec<bool>,
    others: BTreeSet<u32>,
}

impl Model for Held {
    ghost use Rattle.std.specs.Prelude.{ℕ, List};
    ghost use Rattle.proof_check.specs.Marks.{MarksAre};

    ghost Value = { List ℕ };

    ghost view = { λ held. held.lits.items };

    ghost invariant = { λ held. MarksAre held.table.items held.others held.lits.items };
}

impl Held {
    /// No literals, with a table for so many codes.
    pub fn new(alloc: Global, codes: usize) -> Result<Self, AllocError>
        ensures { IfOk result (λ held. held ≡ []) }
    {
        let table = vec![in alloc; false; codes]?;
        Ok(Held {
            lits: Vec::new(alloc),
            table,
            others: BTreeSet::new(alloc),
        })
    }

    pub fn has(&self, lit: Lit) -> bool
        ensures { result ≡ has_lit self.now lit }
    {
        is_marked(&self.table, &self.others, lit.code())
    }

    pub fn hold(&mut self, lit: Lit) -> Result<(), AllocError>
        ensures { OnOk result (SameLits self.new (lit ∷ self.old)) }
    {
        self.lits.reserve(1)?;
        mark(&mut self.table, &mut self.others, lit.code())?;
        self.lits.push(lit).unwrap();
        Ok(())
    }

    pub fn hold_all(&mut self, lits: &[Lit]) -> Result<(), AllocError>
        requires { self.old ≡ [] }
        ensures { OnOk result (SameLits self.new lits.now) }
    {
        for lit in lits {
            self.hold(*lit)?;
        }
        Ok(())
    }

    pub fn clear(&mut self)
        ensures { self.new ≡ [] }
    {
        self.others.clear();
        while let Some(lit) = self.lits.pop() {
            unmark(&mut self.table, lit.code());
        }
    }
}

/// Whether a code is marked.
fn is_marked(table: &[bool], others: &BTreeSet<u32>, code: u32) -> bool
    ensures { result ≡ is_marked table.now others.now code }
{
    if (code as usize) < table.len() {
        table[code as usize]
    } else {
        others.contains(&code)
    }
}

/// Marks a code.
fn mark(table: &mut [bool], others: &mut BTreeSet<u32>, code: u32) -> Result<(), AllocError>
    ensures ok { OnOk result ((q : ℕ) → is_marked table.new others.new q ≡ (code == q || is_marked table.old others.old q)) }
    ensures err { OnErr result ((q : ℕ) → is_marked table.new others.new q ≡ is_marked table.old others.old q) }
{
    if (code as usize) < table.len() {
        table[code as usize] = true;
    } else {
        others.insert(code)?;
    }
    Ok(())
}

/// Takes the mark of a code out of the table.
fn unmark(table: &mut Vec<bool>, code: u32)
    ensures { table.new.items ≡ slice_set table.old.items code false }
{
    if (code as usize) < table.len() {
        table[code as usize] = false;
    }
}
