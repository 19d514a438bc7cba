//! The idle clauses of an asker.
ghost use Rattle.std.specs.Prelude.{◌≤◌, length, OnOk};
ghost use Rattle.point_query.specs.Asking.{AskerGoes};

use point_query::Asker;
use std::alloc::AllocError;

/// So many clauses of an asker may be idle when a search answers.
const MOST_IDLE: u64 = 1024;

/// So many turns pass between two looks at how many clauses are idle.
const TURNS: u32 = 65_536;

/// Forgets the idle clauses of an asker where they are many, by a line that waits.
#[tactic(auto, using(crate::proofs::Logs::asker_stays))]
pub fn tidy(asker: &mut Asker) -> Result<(), AllocError>
    ensures few { OnOk result (length asker.new.solver.idle ≤ 1024) }
    ensures kept { AskerGoes asker.old asker.new }
{
    if !asker.has_more_idle(MOST_IDLE) {
        return Ok(());
    }
    asker.tidy()
}

/// Counts a turn; after `TURNS` of them the next one forgets the idle clauses, where they are many.
///
/// To count them takes a look at each clause of the asker, which is too dear for each turn.
#[tactic(auto, using(crate::proofs::Logs::asker_stays))]
pub fn tidy_by_turns(asker: &mut Asker, turns: u32) -> Result<u32, AllocError>
    ensures kept { AskerGoes asker.old asker.new }
{
    if turns < TURNS {
        return Ok(turns + 1);
    }
    tidy(asker)?;
    Ok(0)
}
