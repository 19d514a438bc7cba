//! Classes, what is under what, and splits, by a table.

ghost use Rattle.std.specs.Prelude.{◌≡◌, ◌<◌, ◌≤◌, ◌==◌, ◌^◌, All, filter, length, map, IfOk};
ghost use Rattle.std.specs.List.{list_any};
ghost use Rattle.world_model.specs.Problem.{concept_count, cross_pairs, pair_count};
ghost use Rattle.merge_print.specs.Merged.{leader_of, leaders_of, heads_of, class_of, do_overlap, merged_of};
ghost use Rattle.merge_print.specs.Text.{IsInRange};

use crate::taxonomy::{Classes, MergedTaxonomy, NumberPairs};
use crate::{order, relation};
use constraint_set::Problem;
use rcc5_core::Position;
use std::alloc::{AllocError, Global};

fn leader(problem: &Problem, table: &Position, concept: u32) -> u32
    requires within { concept < concept_count problem.now }
    requires whole { length table.now ≡ pair_count problem.now }
    ensures leader { result ≡ leader_of problem.now table.now concept }
    ensures least { result ≤ concept }
{
    for earlier in 0..concept {
        if relation::are_equal(problem, table, earlier, concept) {
            return earlier;
        }
    }
    concept
}

fn leaders(alloc: Global, problem: &Problem, table: &Position) -> Result<Vec<u32>, AllocError>
    requires { length table.now ≡ pair_count problem.now }
    ensures leaders { IfOk result (λ v. v.items ≡ leaders_of problem.now table.now) }
    ensures count { IfOk result (λ v. length v.items ≡ concept_count problem.now) }
{
    let mut leaders = Vec::new(alloc);
    for concept in 0..problem.concept_count() {
        leaders.push(leader(problem, table, concept))?;
    }
    Ok(leaders)
}

fn is_led(leaders: &[u32], leader: u32) -> bool
    ensures { result ≡ list_any (λ k. k == leader) leaders.now }
{
    leaders.iter().any(|known| *known == leader)
}

// The leaders of classes.
fn heads(alloc: Global, leaders: &[u32]) -> Result<Vec<u32>, AllocError>
    requires { length leaders.now < 2 ^ 32 }
    ensures heads { IfOk result (λ v. v.items ≡ heads_of leaders.now) }
    ensures within { IfOk result (λ v. All (λ h. h < length leaders.now) v.items) }
    ensures few { IfOk result (λ v. length v.items ≤ length leaders.now) }
{
    let mut heads = Vec::new(alloc);
    for leader in 0..leaders.len() as u32 {
        if is_led(leaders, leader) {
            heads.push(leader)?;
        }
    }
    Ok(heads)
}

fn class(alloc: Global, leaders: &[u32], leader: u32) -> Result<Vec<u32>, AllocError>
    requires { length leaders.now < 2 ^ 32 }
    ensures { IfOk result (λ v. v.items ≡ class_of leaders.now leader) }
{
    let mut class = Vec::new(alloc);
    for concept in 0..leaders.len() as u32 {
        if leaders[concept as usize] == leader {
            class.push(concept)?;
        }
    }
    Ok(class)
}

fn classes(alloc: Global, leaders: &[u32], heads: &[u32]) -> Result<Classes, AllocError>
    requires { length leaders.now < 2 ^ 32 }
    ensures { IfOk result (λ c. c ≡ map (class_of leaders.now) heads.now) }
{
    let mut lists = Vec::new(alloc);
    for head in heads {
        lists.push(class(alloc, leaders, *head)?)?;
    }
    Ok(Classes::new(lists))
}

fn splits(alloc: Global, problem: &Problem, table: &Position) -> Result<NumberPairs, AllocError>
    requires { length table.now ≡ pair_count problem.now }
    ensures { IfOk result (λ s. s ≡ filter (do_overlap problem.now table.now) (cross_pairs problem.now)) }
{
    let mut list = Vec::new(alloc);
    for pair in 0..problem.cross_count() {
        let (x, y) = problem.pair_at(pair);
        if relation::do_overlap(problem, table, x, y) {
            list.push((x, y))?;
        }
    }
    Ok(NumberPairs::new(list))
}

/// The merged taxonomy of a possible world, by its table.
///
/// A class has the concepts that share a leader, which is the least one equal to them. A class is under another
/// where its leader is included in the other's and no class lies between. A split is a pair across taxonomies
/// that overlaps.
pub fn merged(
    alloc: Global,
    problem: &Problem,
    table: &Position,
) -> Result<MergedTaxonomy, AllocError>
    requires { length table.now ≡ pair_count problem.now }
    ensures merged { IfOk result (λ m. m ≡ merged_of problem.now table.now) }
    ensures range { IfOk result (λ m. IsInRange problem.now m) }
{
    problem.facts();
    let leaders = leaders(alloc, problem, table)?;
    let heads = heads(alloc, &leaders)?;
    let classes = classes(alloc, &leaders, &heads)?;
    let under = order::under(alloc, problem, table, &heads)?;
    let splits = splits(alloc, problem, table)?;
    Ok(MergedTaxonomy {
        classes,
        under,
        splits,
    })
}
