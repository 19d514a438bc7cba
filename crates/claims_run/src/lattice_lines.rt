//! The lines of all minimal conflicts and all maximal consistent sets.
ghost use Rattle.std.specs.Prelude.{◌≡◌, ◌++◌, map, All, IfOk, OnOk};
ghost use Rattle.world_model.specs.Questions.{HasFlags};
ghost use Rattle.cert_text.specs.Lines.{bit_byte};
ghost use Rattle.claims_run.specs.Answering.{set_line, sets_text, lattice_line, lattice_text};
ghost use Rattle.claims_run.specs.Putting.{AreFlagged};

use crate::count_line::put_count;
use conflict_lattice::{Lattice, Subset};
use constraint_set::Problem;
use std::alloc::{AllocError, Global};

// A flag as a byte.
fn bit_byte(flag: bool) -> u8
    ensures { result ≡ bit_byte flag }
{
    if flag { b'1' } else { b'0' }
}

// Puts the flag of each articulation, in input order.
fn put_bits(problem: &Problem, set: &Subset, text: &mut Vec<u8>) -> Result<(), AllocError>
    requires { HasFlags problem.now set.now }
    ensures { OnOk result (text.new.items ≡ text.old.items ++ map bit_byte set.now) }
{
    for index in 0..problem.articulation_count() {
        text.push(bit_byte(set.has(index)))?;
    }
    Ok(())
}

// Puts the line of a set.
fn put_set(problem: &Problem, set: &Subset, text: &mut Vec<u8>) -> Result<(), AllocError>
    requires { HasFlags problem.now set.now }
    ensures { OnOk result (text.new.items ≡ text.old.items ++ set_line set.now) }
{
    if problem.articulation_count() == 0 {
        return text.extend_from_slice(b".\n");
    }
    put_bits(problem, set, text)?;
    text.push(b'\n')?;
    Ok(())
}

// Puts how many sets there are, and the line of each.
fn put_sets(
    alloc: Global,
    problem: &Problem,
    name: &str,
    sets: &[Subset],
    text: &mut Vec<u8>,
) -> Result<(), AllocError>
    requires { All (HasFlags problem.now) sets.now }
    ensures { OnOk result (text.new.items ≡ text.old.items ++ sets_text name.now sets.now) }
{
    put_count(alloc, name, sets.len() as u64, text)?;
    for set in sets {
        put_set(problem, set, text)?;
    }
    Ok(())
}

// Puts the last line: how many there are of each.
fn put_last(alloc: Global, lattice: &Lattice, text: &mut Vec<u8>) -> Result<(), AllocError>
    ensures { OnOk result (text.new.items ≡ text.old.items ++ lattice_line lattice.now) }
{
    let conflicts = lattice.conflicts().len();
    let consistent = lattice.consistent().len();
    let line = format!(in alloc; "lattice {conflicts} {consistent}\n")?;
    text.extend_from_slice(line.as_bytes())?;
    Ok(())
}

/// The conflicts, then the sets, and how many there are of each.
pub(crate) fn lattice_text(
    alloc: Global,
    problem: &Problem,
    lattice: &Lattice,
) -> Result<Vec<u8>, AllocError>
    requires { AreFlagged problem.now lattice.now }
    ensures { IfOk result (λ text. text.items ≡ lattice_text lattice.now) }
{
    let mut text = Vec::new(alloc);
    put_sets(alloc, problem, "conflicts", lattice.conflicts(), &mut text)?;
    put_sets(
        alloc,
        problem,
        "consistent",
        lattice.consistent(),
        &mut text,
    )?;
    put_last(alloc, lattice, &mut text)?;
    Ok(text)
}
