//! The live clauses, given and derived.

ghost use Rattle.std.specs.Prelude.{◌≡◌, [], ◌∷◌, ◌++◌, OnOk, OnErr, option_copied};
ghost use Rattle.lits_core.specs.Derivation.{first_state, given_clause, live_clause, without_ids, forget_fault};
ghost use Rattle.proof_check.specs.Check.{Gives};

use crate::entries::Entries;
use lits_core::{Clause, LineFault, Lit};
use std::alloc::{AllocError, Global};
use std::marker::Model;

/// The live clauses, seen as the state of a derivation.
#[derive(Drop)]
pub struct Clauses {
    given: Vec<Clause>,
    entries: Entries,
}

impl Model for Clauses {
    ghost use Rattle.lits_core.specs.Derivation.{State};

    ghost Value = { State };

    ghost view = { λ clauses. record { given = clauses.given.items; derived = clauses.entries } };
}

impl Clauses {
    pub fn new(alloc: Global, given: Vec<Clause>) -> Self
        ensures { result ≡ first_state given.items }
    {
        Clauses {
            given,
            entries: Entries::new(alloc),
        }
    }

    fn find_given(&self, id: u64) -> Option<&[Lit]>
        ensures { option_copied result ≡ given_clause self.now.given id }
    {
        let place = id.checked_sub(1)?;
        let clause = self.given.get(place as usize)?;
        Some(clause.lits())
    }

    pub fn find(&self, id: u64) -> Option<&[Lit]>
        ensures { option_copied result ≡ live_clause self.now id }
    {
        match self.find_given(id) {
            Some(lits) => Some(lits),
            None => self.entries.find(id),
        }
    }

    pub fn push(&mut self, id: u64, lits: Clause) -> Result<(), AllocError>
        requires { live_clause self.old id ≡ None }
        ensures ok { OnOk result (self.new ≡ record self.old { derived = self.old.derived ++ (id, lits) ∷ [] }) }
        ensures err { OnErr result (self.new ≡ self.old) }
    {
        self.entries.push(id, lits)?;
        Ok(())
    }

    pub fn forget(&mut self, alloc: Global, ids: &[u64]) -> Result<(), LineFault>
        ensures fault { Gives (forget_fault self.old.derived ids.now) result }
        ensures ok { OnOk result (self.new ≡ record self.old { derived = without_ids self.old.derived ids.now }) }
        ensures err { OnErr result (self.new ≡ self.old) }
    {
        self.entries.can_forget(alloc, ids)?;
        for id in ids {
            self.entries.remove(*id);
        }
        Ok(())
    }

    /// Takes all derived clauses out.
    pub fn restart(&mut self)
        ensures { self.new ≡ first_state self.old.given }
    {
        self.entries.clear();
    }
}
