//! What a hint's clause does to the literals held false.

ghost use Rattle.std.specs.Prelude.{◌≡◌};
ghost use Rattle.lits_core.specs.Derivation.{open_lits, hint_of};

use crate::held::Held;
use lits_core::{Hint, Lit};

/// What a clause does once some literals are held false.
pub fn hint_of(held: &Held, lits: &[Lit]) -> Hint
    ensures { result ≡ hint_of (open_lits held.now lits.now) }
{
    let mut open = None;
    for lit in lits {
        let is_held = held.has(*lit);
        if !is_held {
            match open {
                None => open = Some(*lit),
                Some(first) => {
                    if first != *lit {
                        return Hint::NotUnit;
                    }
                }
            }
        }
    }
    match open {
        None => Hint::Falsified,
        Some(lit) => Hint::Implies(lit),
    }
}
