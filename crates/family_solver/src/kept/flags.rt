//! The variables that say which articulations are kept.
ghost use Rattle.family_solver.specs.Showing.{variable_count};
ghost use Rattle.family_solver.specs.Kept.Keeping.{AreAssumed, AreDenied, IsCore, flag_variable};
ghost use Rattle.lits_core.specs.Literals.{literal_of};
ghost use Rattle.std.specs.Prelude.{IfOk, length, ◌+◌, ◌<◌, ◌^◌, ◌≡◌};

use crate::Ground;
use learn_solver::Literals;
use lits_core::Lit;
use std::alloc::{AllocError, Global};

// How many variables stand before these.
fn first(ground: &Ground) -> u32
    requires few { variable_count ground.now < 2 ^ 31 }
    ensures { result ≡ variable_count ground.now }
{
    ground.points.len() as u32 + 5 * ground.pairs.len() as u32
}

// The literal that says that the articulation at a place is kept, or is not.
pub(crate) fn flag_lit(ground: &Ground, place: usize, negative: bool) -> Lit
    requires few { flag_variable ground.now place < 2 ^ 31 }
    ensures { result ≡ literal_of (flag_variable ground.now place) negative }
{
    Lit::new(first(ground) + place as u32, negative)
}

// That each articulation is kept that flags keep.
pub(crate) fn assumed(alloc: Global, ground: &Ground, kept: &[bool]) -> Result<Vec<Lit>, AllocError>
    requires few { variable_count ground.now + length kept.now < 2 ^ 31 }
    ensures { IfOk result (λ lits. AreAssumed ground.now kept.now lits.items) }
{
    let mut lits = Vec::new(alloc);
    for place in 0..kept.len() {
        if kept[place] {
            lits.push(flag_lit(ground, place, false))?;
        }
    }
    Ok(lits)
}

// Those of the flags of which a clause says that they are not so.
pub(crate) fn core_of(
    alloc: Global,
    ground: &Ground,
    kept: &[bool],
    clause: &Literals<'_>,
) -> Result<Vec<bool>, AllocError>
    requires few { variable_count ground.now + length kept.now < 2 ^ 31 }
    requires denied { AreDenied ground.now kept.now clause.now }
    ensures { IfOk result (λ core. IsCore ground.now kept.now clause.now core.items) }
{
    let mut core = vec![in alloc; false; kept.len()]?;
    for place in 0..clause.count() {
        let flag = clause.lit(place).variable() - first(ground);
        core[flag as usize] = true;
    }
    Ok(core)
}
