//! Unit propagation over a chain of implications and over random clauses of three literals.
//!
//! The random numbers are those of `bench/propagation.cc`, which does the same by a plain program.

ghost use Rattle.std.specs.Prelude.{◌≡◌, ◌+◌, ◌<◌, ◌≤◌, ◌^◌, IfOk};
ghost use Rattle.lits_core.specs.Literals.{variable_of};

use lits_core::Lit;
use std::alloc::{AllocError, Global};
use watch_arena::Trail;

// The next of the random numbers: a linear congruence modulo 2^31.
fn next_random(number: u32) -> u32
    ensures { result < 2 ^ 31 }
{
    let product = u64::from(number) * 1_103_515_245 + 12_345;
    (product % 2_147_483_648) as u32
}

// The literal that a random number stands for.
fn random_lit(number: u32, variables: u32) -> Lit
    requires some { 0 < variables }
    requires few { variables ≤ 100_000_000 }
    ensures { variable_of result < variables }
{
    Lit::new(number / 8 % variables, number / 65_536 % 2 == 1)
}

// Assumes a literal whose variable has no value, and propagates; answers whether no clause is false.
fn follow(trail: &mut Trail, lit: Lit) -> Result<bool, AllocError>
    requires { variable_of lit < trail.old.variables }
    ensures { trail.new.variables ≡ trail.old.variables }
{
    if trail.place_of(lit.variable()).is_none() {
        trail.assume(lit);
    }
    Ok(trail.propagate().is_none())
}

// The first variable is true and implies all others: how many are true then.
fn follow_once(trail: &mut Trail) -> Result<usize, AllocError>
    requires { 0 < trail.old.variables }
    ensures { trail.new.variables ≡ trail.old.variables }
{
    follow(trail, Lit::new(0, false))?;
    let count = trail.place_count();
    trail.undo_to(0);
    Ok(count)
}

// A variable implies the next one.
fn add_link(trail: &mut Trail, variable: u32) -> Result<(), AllocError>
    requires next { variable + 1 < trail.old.variables }
    requires few { variable < 100_000_000 }
    ensures { trail.new.variables ≡ trail.old.variables }
{
    trail.add(
        &[Lit::new(variable, true), Lit::new(variable + 1, false)],
        u64::from(variable),
    )?;
    Ok(())
}

// A chain: each variable implies the next.
fn chain(alloc: Global, variables: u32) -> Result<Trail, AllocError>
    requires some { 0 < variables }
    requires few { variables ≤ 100_000_000 }
    ensures { IfOk result (λ trail. trail.variables ≡ variables) }
{
    let mut trail = Trail::new(alloc, variables)?;
    for variable in 0..variables - 1 {
        add_link(&mut trail, variable)?;
    }
    Ok(trail)
}

/// What came of following a chain of so many variables, so many times.
pub fn follow_chain(alloc: Global, rounds: u32, variables: u32) -> Result<String, AllocError> {
    let variables = variables.clamp(1, 100_000_000);
    let mut trail = chain(alloc, variables)?;
    let mut total: u64 = 0;
    for _ in 0..rounds {
        total = total.saturating_add(follow_once(&mut trail)? as u64);
    }
    format!(in alloc; "implied {total}")
}

// Adds a random clause, and answers the last random number.
fn add_random(trail: &mut Trail, random: u32, variables: u32, id: u32) -> Result<u32, AllocError>
    requires variables { trail.old.variables ≡ variables }
    requires some { 0 < variables }
    requires few { variables ≤ 100_000_000 }
    ensures { trail.new.variables ≡ trail.old.variables }
{
    let first = next_random(random);
    let second = next_random(first);
    let third = next_random(second);
    let lits = [
        random_lit(first, variables),
        random_lit(second, variables),
        random_lit(third, variables),
    ];
    trail.add(&lits, u64::from(id))?;
    Ok(third)
}

// Adds random clauses, three times as many as variables, and answers the last random number.
fn add_clauses(trail: &mut Trail, variables: u32) -> Result<u32, AllocError>
    requires variables { trail.old.variables ≡ variables }
    requires some { 0 < variables }
    requires few { variables ≤ 100_000_000 }
    ensures { trail.new.variables ≡ trail.old.variables }
{
    let mut random = 1;
    for id in 0..3 * variables {
        random = add_random(trail, random, variables, id)?;
    }
    Ok(random)
}

// Assumes random literals one after the other, until a clause is false, and answers the last random number.
fn follow_until_false(trail: &mut Trail, random: u32, variables: u32) -> Result<u32, AllocError>
    requires variables { trail.old.variables ≡ variables }
    requires some { 0 < variables }
    requires few { variables ≤ 100_000_000 }
    ensures { trail.new.variables ≡ trail.old.variables }
{
    let mut random = random;
    for _ in 0..variables {
        random = next_random(random);
        if !follow(trail, random_lit(random, variables))? {
            return Ok(random);
        }
    }
    Ok(random)
}

// Assumes random literals until a clause is false, so many times, and answers how many were true in all.
fn follow_rounds(
    trail: &mut Trail,
    rounds: u32,
    random: u32,
    variables: u32,
) -> Result<u64, AllocError>
    requires variables { trail.old.variables ≡ variables }
    requires some { 0 < variables }
    requires few { variables ≤ 100_000_000 }
{
    let mut random = random;
    let mut total: u64 = 0;
    for _ in 0..rounds {
        random = follow_until_false(trail, random, variables)?;
        total = total.saturating_add(trail.place_count() as u64);
        trail.undo_to(0);
    }
    Ok(total)
}

/// What came of assuming random literals one after the other, until a clause was false, so many times.
pub fn follow_random(alloc: Global, rounds: u32, variables: u32) -> Result<String, AllocError> {
    let variables = variables.clamp(1, 100_000_000);
    let mut trail = Trail::new(alloc, variables)?;
    let random = add_clauses(&mut trail, variables)?;
    let total = follow_rounds(&mut trail, rounds, random, variables)?;
    format!(in alloc; "implied {total}")
}
