//! Which variable is decided next.
ghost use Rattle.std.specs.Prelude.{◌≡◌, ◌<◌, ◌^◌, true, false, None, length, replicate, slice_set, IfOk, IfSome, IsTrue, MatchOption};
ghost use Rattle.lits_core.specs.Literals.{variable_of};
ghost use Rattle.watch_arena.specs.Places.{place_of};
ghost use Rattle.learn_solver.specs.Noted.{AreAssigned, AreBelow, AreSmall};

use activity_heap::Heap;
use lits_core::Lit;
use std::alloc::{AllocError, Global};
use std::marker::Model;
use watch_arena::Trail;

// How many variables literals have.
const LITERALS: u32 = 1 << 31;

// The variables that are noted, of which the most active one that is unassigned is decided next, with the value that it had
// last. Seen as whether each variable is noted.
#[derive(Drop)]
pub(crate) struct Order {
    noted: Vec<bool>,
    phases: Vec<bool>,
    heap: Heap,
    // Noted variables are below it. They are few beside all: of the others no value is ever looked for.
    end: usize,
}

impl Model for Order {
    ghost use Rattle.std.specs.Prelude.{List, Bool};

    ghost Value = { List Bool };

    ghost view = { λ order. order.noted.items };

    ghost use Rattle.learn_solver.specs.Noted.{IsNotedBelow};

    ghost invariant = { λ order. IsNotedBelow order.noted.items order.end };
}

impl Order {
    // No variable is noted.
    pub(crate) fn new(alloc: Global, variables: u32) -> Result<Order, AllocError>
        ensures { IfOk result (λ order. order ≡ replicate variables false) }
    {
        let room = variables as usize;
        Ok(Order {
            noted: vec![in alloc; false; room]?,
            phases: vec![in alloc; false; room]?,
            heap: Heap::new(alloc, variables)?,
            end: 0,
        })
    }

    // Notes a variable.
    pub(crate) fn note(&mut self, variable: u32)
        requires within { variable < length self.old }
        requires small { variable < 2 ^ 31 }
        ensures { self.new ≡ slice_set self.old variable true }
    {
        self.noted[variable as usize] = true;
        self.end = self.end.max(variable as usize + 1);
        self.heap.push(variable);
    }

    // The variables of a conflict become more active, and later ones count more.
    pub(crate) fn bump(&mut self, variables: &[u32])
        ensures { self.new ≡ self.old }
    {
        self.heap.bump_all(variables);
    }

    // A literal is true no more.
    pub(crate) fn unassign(&mut self, lit: Lit)
        ensures { self.new ≡ self.old }
    {
        let index = lit.variable() as usize;
        if index < self.phases.len() {
            self.phases[index] = !lit.is_negative();
        }
        if index < self.noted.len() && self.noted[index] {
            self.heap.push(lit.variable());
        }
    }

    // The literal to decide next, if some noted variable is unassigned.
    pub(crate) fn pick(&mut self, trail: &Trail) -> Option<Lit>
        requires { length self.old ≡ trail.now.variables }
        ensures kept { self.new ≡ self.old }
        ensures picked { MatchOption result (AreAssigned self.old trail.now.places) (λ lit. (variable_of lit < trail.now.variables) × (place_of trail.now.places (variable_of lit) ≡ None)) }
    {
        let variable = match most_active(&mut self.heap, trail, self.noted.len()) {
            Some(variable) => variable,
            None => unassigned(&self.noted, self.end, trail)?,
        };
        Some(literal(variable, &self.phases))
    }
}

// The literal of a variable with the value that it had last.
fn literal(variable: u32, phases: &[bool]) -> Lit
    requires { variable < 2 ^ 31 }
    ensures { variable_of result ≡ variable }
{
    let positive = phases.get(variable as usize).copied().unwrap_or(false);
    Lit::new(variable, !positive)
}

// Whether a variable can be decided.
fn is_free(variable: u32, trail: &Trail, count: usize) -> bool
    requires { count ≡ trail.now.variables }
    ensures { IsTrue result → (variable < 2 ^ 31) × (variable < trail.now.variables) × (place_of trail.now.places variable ≡ None) }
{
    variable < LITERALS && (variable as usize) < count && trail.value(variable).is_none()
}

// The most active variable that can be decided. Those before it leave the heap.
fn most_active(heap: &mut Heap, trail: &Trail, count: usize) -> Option<u32>
    requires { count ≡ trail.now.variables }
    ensures { IfSome result (λ v. (v < 2 ^ 31) × (v < trail.now.variables) × (place_of trail.now.places v ≡ None)) }
{
    while let Some(variable) = heap.pop() {
        if is_free(variable, trail, count) {
            return Some(variable);
        }
    }
    None
}

// The first noted variable that is unassigned.
fn unassigned(noted: &[bool], end: usize, trail: &Trail) -> Option<u32>
    requires count { length noted.now ≡ trail.now.variables }
    requires small { AreSmall noted.now }
    requires below { AreBelow noted.now end }
    ensures { MatchOption result (AreAssigned noted.now trail.now.places) (λ v. (v < 2 ^ 31) × (v < trail.now.variables) × (place_of trail.now.places v ≡ None)) }
{
    for (at, is_noted) in noted.iter().enumerate() {
        if at >= end {
            return None;
        }
        if *is_noted && trail.value(at as u32).is_none() {
            return Some(at as u32);
        }
    }
    None
}
