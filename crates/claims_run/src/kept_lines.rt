//! The lines of the articulations that are kept.
ghost use Rattle.std.specs.Prelude.{◌≡◌, ◌<◌, ◌++◌, length, OnOk};
ghost use Rattle.world_model.specs.Questions.{HasFlags};
ghost use Rattle.conflict_min.specs.Conflicts.{places_from};
ghost use Rattle.claims_run.specs.Answering.{numbered_lines};
ghost use Rattle.claims_run.specs.Putting.{IsNumberedAt};

use cleantax_text::articulation_text;
use constraint_set::Problem;
use std::alloc::{AllocError, Global};

/// How many flags are true.
pub fn count_kept(kept: &[bool]) -> usize
    ensures { result ≡ length (places_from 0 kept.now) }
{
    let mut count = 0;
    for place in 0..kept.len() {
        if kept[place] {
            count += 1;
        }
    }
    count
}

// Puts the number of an articulation, from 1, and its canonical text.
fn put_articulation(
    alloc: Global,
    problem: &Problem,
    index: u32,
    text: &mut Vec<u8>,
) -> Result<(), AllocError>
    requires { index < length problem.now.articulations }
    ensures { OnOk result (IsNumberedAt problem.now index text.old.items text.new.items) }
{
    problem.facts();
    let number = index + 1;
    let number = format!(in alloc; "{number} ")?;
    text.extend_from_slice(number.as_bytes())?;
    text.extend_from_slice(&articulation_text(alloc, problem, index)?)?;
    text.push(b'\n')?;
    Ok(())
}

/// Puts a line for each articulation whose flag is true: its number, from 1, and its canonical text.
pub fn put_kept(
    alloc: Global,
    problem: &Problem,
    kept: &[bool],
    text: &mut Vec<u8>,
) -> Result<(), AllocError>
    requires { HasFlags problem.now kept.now }
    ensures { OnOk result (text.new.items ≡ text.old.items ++ numbered_lines problem.now 1 problem.now.articulations kept.now) }
{
    for index in 0..problem.articulation_count() {
        if kept[index as usize] {
            put_articulation(alloc, problem, index, text)?;
        }
    }
    Ok(())
}
