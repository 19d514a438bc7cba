//! Trails of a few clauses: what no clause of a contract says.
ghost use Rattle.std.specs.Prelude.{◌≡◌, ◌<◌, []};
ghost use Rattle.lits_core.specs.Literals.{variable_of};

use crate::solver_and_book::{digit, sign};
use clause_arena::Ref;
use lits_core::Lit;
use std::alloc::{AllocError, Global};
use std::test::Fail;
use watch_arena::Trail;

fn add_pair(trail: &mut Trail, first: Lit, second: Lit, id: u64) -> Result<Ref, AllocError>
    requires first { variable_of first < trail.old.variables }
    requires second { variable_of second < trail.old.variables }
    ensures places { trail.new.places ≡ trail.old.places }
    ensures variables { trail.new.variables ≡ trail.old.variables }
    ensures level { trail.new.level ≡ trail.old.level }
{
    let at = trail.add(&[first, second], id)?;
    Ok(at)
}

/// "Not 1 or 2", "not 2 or 3" and "not 1 or not 3"; answers the first and the third.
fn add_three(trail: &mut Trail) -> Result<(Ref, Ref), AllocError>
    requires { trail.old.variables ≡ 4 }
    ensures places { trail.new.places ≡ trail.old.places }
    ensures variables { trail.new.variables ≡ 4 }
    ensures level { trail.new.level ≡ trail.old.level }
{
    let first = add_pair(trail, Lit::new(1, true), Lit::new(2, false), 1)?;
    add_pair(trail, Lit::new(2, true), Lit::new(3, false), 2)?;
    let third = add_pair(trail, Lit::new(1, true), Lit::new(3, true), 3)?;
    Ok((first, third))
}

/// Puts the value of each of the four variables; a dot for none.
fn put_values(text: &mut String, trail: &Trail) -> Result<(), AllocError> {
    for variable in 0..4 {
        text.push(match trail.value(variable) {
            Some(value) => sign(value),
            None => '.',
        })?;
    }
    Ok(())
}

// All three are false once 1 is assumed and propagation has come that far.
fn chain_on(alloc: Global, trail: &mut Trail) -> Result<String, AllocError>
    requires places { trail.old.places ≡ [] }
    requires variables { trail.old.variables ≡ 4 }
    requires level { trail.old.level ≡ 0 }
{
    add_three(trail)?;
    let mut text = String::new(alloc);
    trail.assume(Lit::new(1, false));
    text.push(sign(trail.propagate().is_some()))?;
    trail.undo_to(0);
    text.push(sign(trail.propagate().is_some()))?;
    put_values(&mut text, trail)?;
    Ok(text)
}

// No `?` comes after a trail is made: each would be one more place that lets it go, and proving those is dear.
fn chain(alloc: Global) -> Result<String, AllocError> {
    let mut trail = Trail::new(alloc, 4)?;
    chain_on(alloc, &mut trail)
}

#[test]
fn a_chain_ends_in_a_false_clause(rt: HostRuntime) -> Result<(), Fail> {
    let text = chain(rt.alloc())?;
    assert_eq!(rt; text.as_str(), "+-....");
    Ok(())
}

/// Forgets a clause, if it is one.
fn forget(trail: &mut Trail, at: Ref) -> bool
    requires { trail.old.places ≡ [] }
    ensures places { trail.new.places ≡ [] }
    ensures variables { trail.new.variables ≡ trail.old.variables }
    ensures level { trail.new.level ≡ trail.old.level }
{
    if !trail.arena().contains(at) || !trail.arena().is_live(at) {
        return false;
    }
    trail.forget(at);
    true
}

// A chain whose third clause is forgotten: 2 and 3 are implied, each by its clause.
fn shorter_chain_on(alloc: Global, trail: &mut Trail) -> Result<String, AllocError>
    requires places { trail.old.places ≡ [] }
    requires variables { trail.old.variables ≡ 4 }
    requires level { trail.old.level ≡ 0 }
{
    let (first, third) = add_three(trail)?;
    let mut text = String::new(alloc);
    text.push(sign(forget(trail, third)))?;
    trail.assume(Lit::new(1, false));
    text.push(sign(trail.propagate().is_some()))?;
    put_values(&mut text, trail)?;
    text.push(sign(trail.reason(2) == Some(first)))?;
    text.push(digit(trail.place_count() as u64))?;
    Ok(text)
}

fn shorter_chain(alloc: Global) -> Result<String, AllocError> {
    let mut trail = Trail::new(alloc, 4)?;
    shorter_chain_on(alloc, &mut trail)
}

#[test]
fn a_forgotten_clause_is_not_met(rt: HostRuntime) -> Result<(), Fail> {
    let text = shorter_chain(rt.alloc())?;
    assert_eq!(rt; text.as_str(), "+-.++++3");
    Ok(())
}
