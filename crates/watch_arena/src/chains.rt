//! Where the chain of each literal's watches begins, and the list of the clauses that watch none.
ghost use Rattle.std.specs.Prelude.{◌≡◌, ◌<◌, ◌≤◌, ℕ, [], ◌∷◌, ◌++◌, length, take, replicate, slice_index, slice_set, None, IfOk, OnOk, OnErr};
ghost use Rattle.watch_arena.specs.Chains.{head_of};
ghost use Rattle.watch_arena.specs.Compactions.{IsMended};

use clause_arena::{Link, Moves, Ref};
use std::alloc::{AllocError, Global};
use std::marker::Model;

// The first entry of each literal's chain, by the literal's code; the others follow through the links of the clauses.
#[derive(Drop)]
pub(crate) struct Chains {
    heads: Vec<Option<Link>>,
}

impl Model for Chains {
    ghost use Rattle.std.specs.Prelude.{List, Option};
    ghost use Rattle.clause_arena.specs.declared.place.Link.{Link};

    ghost Value = { List (Option Link) };

    ghost view = { λ c. c.heads.items };
}

impl Chains {
    // Empty chains.
    pub(crate) fn new(alloc: Global, count: usize) -> Result<Chains, AllocError>
        ensures { IfOk result (λ c. c ≡ replicate count None) }
    {
        let heads = vec![in alloc; None; count]?;
        Ok(Chains { heads })
    }

    pub(crate) fn head(&self, lit: usize) -> Option<Link>
        requires { lit < length self.now }
        ensures { result ≡ head_of self.now lit }
    {
        self.heads[lit]
    }

    // All chains are empty.
    pub(crate) fn clear(&mut self)
        ensures size { length self.new ≡ length self.old }
        ensures none { (lit : ℕ) → head_of self.new lit ≡ None }
    {
        clear_all(&mut self.heads);
    }

    pub(crate) fn set_head(&mut self, lit: usize, to: Option<Link>)
        requires { lit < length self.old }
        ensures { self.new ≡ slice_set self.old lit to }
    {
        self.heads[lit] = to;
    }
}

// Clauses in a list.
#[derive(Drop)]
pub(crate) struct Shorts {
    clauses: Vec<Ref>,
}

impl Model for Shorts {
    ghost use Rattle.std.specs.Prelude.{ℕ, List};

    ghost Value = { List ℕ };

    ghost view = { λ s. s.clauses.items };
}

impl Shorts {
    pub(crate) fn new(alloc: Global) -> Shorts
        ensures { result ≡ [] }
    {
        Shorts {
            clauses: Vec::new(alloc),
        }
    }

    pub(crate) fn len(&self) -> usize
        ensures { result ≡ length self.now }
    {
        self.clauses.len()
    }

    pub(crate) fn get(&self, at: usize) -> Ref
        requires { at < length self.now }
        ensures { result ≡ slice_index self.now at }
    {
        self.clauses[at]
    }

    pub(crate) fn push(&mut self, clause: Ref) -> Result<(), AllocError>
        ensures ok { OnOk result (self.new ≡ self.old ++ clause ∷ []) }
        ensures err { OnErr result (self.new ≡ self.old) }
    {
        self.clauses.push(clause)?;
        Ok(())
    }

    // The clauses that were moved stand in the list under their new names, and no others.
    pub(crate) fn mend(&mut self, moves: &Moves)
        ensures { IsMended moves.now.pairs self.old self.new }
    {
        let kept = rename(&mut self.clauses, moves);
        self.clauses.truncate(kept);
    }
}

// No link is left.
fn clear_all(heads: &mut [Option<Link>])
    ensures { (lit : ℕ) → head_of heads.new lit ≡ None }
{
    for head in heads.iter_mut() {
        *head = None;
    }
}

// Brings the clauses that were moved to the front under their new names, and answers how many they are.
fn rename(clauses: &mut [Ref], moves: &Moves) -> usize
    ensures within { result ≤ length clauses.old }
    ensures mended { IsMended moves.now.pairs clauses.old (take result clauses.new) }
{
    let mut kept = 0;
    for at in 0..clauses.len() {
        if let Some(to) = moves.moved(clauses[at]) {
            clauses[kept] = to;
            kept += 1;
        }
    }
    kept
}
