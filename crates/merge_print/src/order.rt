//! Which class is under which.

ghost use Rattle.std.specs.Prelude.{◌≡◌, ◌<◌, ◌+◌, ◌++◌, ◌^◌, All, length, map, filter, not, slice_index_or, false, IfOk, OnOk};
ghost use Rattle.std.specs.List.{list_any};
ghost use Rattle.world_model.specs.Problem.{concept_count, pair_count};
ghost use Rattle.merge_print.specs.Merged.{is_within, is_below, all_above, just_above, under_of, row_has};

use crate::relation;
use crate::taxonomy::NumberPairs;
use constraint_set::Problem;
use rcc5_core::Position;
use std::alloc::{AllocError, Global};
use std::marker::Model;

/// For each class a row that says of each class whether the first is below it, by their places.
#[derive(Drop)]
struct Below {
    rows: Vec<Vec<bool>>,
}

impl Model for Below {
    ghost use Rattle.std.specs.Prelude.{Bool, List, map};

    ghost Value = { List (List Bool) };

    ghost view = { λ b. map (λ v. v.items) b.rows.items };
}

// Of each leader of a class, whether the given one is included in it.
fn row_of(
    alloc: Global,
    problem: &Problem,
    table: &Position,
    heads: &[u32],
    head: u32,
) -> Result<Vec<bool>, AllocError>
    requires whole { length table.now ≡ pair_count problem.now }
    requires heads { All (λ h. h < concept_count problem.now) heads.now }
    requires head { head < concept_count problem.now }
    ensures { IfOk result (λ v. v.items ≡ map (is_within problem.now table.now head) heads.now) }
{
    let mut row = Vec::new(alloc);
    for other in heads {
        row.push(relation::is_within(problem, table, head, *other))?;
    }
    Ok(row)
}

fn has_place(row: &[bool], place: u32) -> bool
    ensures { result ≡ slice_index_or row.now place false }
{
    match row.get(place as usize) {
        Some(has) => *has,
        None => false,
    }
}

impl Below {
    fn new(
        alloc: Global,
        problem: &Problem,
        table: &Position,
        heads: &[u32],
    ) -> Result<Below, AllocError>
        requires whole { length table.now ≡ pair_count problem.now }
        requires heads { All (λ h. h < concept_count problem.now) heads.now }
        ensures { IfOk result (λ b. b ≡ map (λ h. map (is_within problem.now table.now h) heads.now) heads.now) }
    {
        let mut rows = Vec::new(alloc);
        for head in heads {
            rows.push(row_of(alloc, problem, table, heads, *head)?)?;
        }
        Ok(Below { rows })
    }

    fn has(&self, class: u32, other: u32) -> bool
        ensures { result ≡ row_has self.now class other }
    {
        match self.rows.get(class as usize) {
            Some(row) => has_place(row, other),
            None => false,
        }
    }

    // The classes that a class is below.
    fn all_above(&self, alloc: Global, count: u32, class: u32) -> Result<Vec<u32>, AllocError>
        ensures { IfOk result (λ v. v.items ≡ all_above (row_has self.now) count class) }
    {
        let mut above = Vec::new(alloc);
        for other in 0..count {
            if self.has(class, other) {
                above.push(other)?;
            }
        }
        Ok(above)
    }

    // Whether one of these classes is below another one.
    fn is_any_below(&self, classes: &[u32], other: u32) -> bool
        ensures { result ≡ list_any (λ m. row_has self.now m other) classes.now }
    {
        classes.iter().any(|class| self.has(*class, other))
    }

    // Those of some classes that none of them is below.
    fn lowest(&self, alloc: Global, classes: &[u32]) -> Result<Vec<u32>, AllocError>
        ensures { IfOk result (λ v. v.items ≡ filter (λ q. not (list_any (λ m. row_has self.now m q) classes.now)) classes.now) }
    {
        classes
            .iter()
            .filter(|class| !self.is_any_below(classes, **class))
            .copied()
            .collect(alloc)
    }

    fn just_above(&self, alloc: Global, count: u32, class: u32) -> Result<Vec<u32>, AllocError>
        ensures above { IfOk result (λ v. v.items ≡ just_above (row_has self.now) count class) }
        ensures within { IfOk result (λ v. All (λ q. q < count) v.items) }
    {
        let above = self.all_above(alloc, count, class)?;
        self.lowest(alloc, &above)
    }
}

// Puts the numbers of a class and of each that it is under.
fn put_under(list: &mut Vec<(u32, u32)>, class: u32, above: &[u32]) -> Result<(), AllocError>
    requires class { class + 1 < 2 ^ 32 }
    requires above { All (λ q. q + 1 < 2 ^ 32) above.now }
    ensures { OnOk result (list.new.items ≡ list.old.items ++ map (λ q. (class + 1, q + 1)) above.now) }
{
    for other in above {
        list.push((class + 1, *other + 1))?;
    }
    Ok(())
}

fn list_under(alloc: Global, below: &Below, count: u32) -> Result<NumberPairs, AllocError>
    requires { count < 2 ^ 31 }
    ensures { IfOk result (λ u. u ≡ under_of (row_has below.now) count) }
{
    let mut list = Vec::new(alloc);
    for class in 0..count {
        let above = below.just_above(alloc, count, class)?;
        put_under(&mut list, class, &above)?;
    }
    Ok(NumberPairs::new(list))
}

fn count_of(heads: &[u32]) -> u32
    requires { length heads.now < 2 ^ 31 }
    ensures { result ≡ length heads.now }
{
    heads.len() as u32
}

/// The numbers of each class and of each that it is under, by the leaders of the classes.
pub(crate) fn under(
    alloc: Global,
    problem: &Problem,
    table: &Position,
    heads: &[u32],
) -> Result<NumberPairs, AllocError>
    requires whole { length table.now ≡ pair_count problem.now }
    requires heads { All (λ h. h < concept_count problem.now) heads.now }
    requires few { length heads.now < 2 ^ 31 }
    ensures { IfOk result (λ u. u ≡ under_of (is_below problem.now table.now heads.now) (length heads.now)) }
{
    let below = Below::new(alloc, problem, table, heads)?;
    list_under(alloc, &below, count_of(heads))
}
