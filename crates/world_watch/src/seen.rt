//! Which relations each pair has in some world.

ghost use Rattle.std.specs.Prelude.{◌≡◌, ◌<◌, ◌≤◌, ◌++◌, ◌∷◌, [], ℕ, codes, filter, length, map, slice_index_or, OnOk};
ghost use Rattle.rcc5_core.specs.declared.Rel.TheVariants.{Disjoint};
ghost use Rattle.rcc5_core.specs.Relation.{all_rels, letter_of};
ghost use Rattle.rcc5_core.specs.RelationSet.{adding, has};
ghost use Rattle.world_model.specs.Problem.{cross_pairs};
ghost use Rattle.world_watch.specs.Kinds.{cross_at, or_dot, pair_names, set_at, seen_line, seen_lines, seen_report};
ghost use Rattle.world_watch.specs.Steps.{IsNew};

use crate::pair_lines::{put_names, rel_at};
use crate::watcher::WorldWatcher;
use constraint_set::Problem;
use rcc5_core::{Position, Rel, RelSet};
use std::alloc::{AllocError, Global};

/// Keeps the relations that each pair across taxonomies had in some world, by the pair's number.
#[derive(Drop)]
pub struct SeenWatcher {
    sets: Vec<RelSet>,
}

// Adds empty sets, so that there are as many sets as are asked for.
fn grow(sets: &mut Vec<RelSet>, count: u32) -> Result<(), AllocError>
    ensures same { (k : ℕ) → set_at sets.new.items k ≡ set_at sets.old.items k }
    ensures long { OnOk result (count ≤ length sets.new.items) }
{
    for _more in sets.len()..count as usize {
        sets.push(RelSet::none())?;
    }
    Ok(())
}

// Adds the relation of each pair to its set.
fn mark(sets: &mut Vec<RelSet>, rels: &[Rel], count: u32)
    requires sets { count ≤ length sets.old.items }
    requires rels { count ≤ length rels.now }
    ensures { (k : ℕ) → k < count → set_at sets.new.items k ≡ adding (set_at sets.old.items k) (slice_index_or rels.now k Disjoint) }
{
    for pair in 0..count as usize {
        let more = set_of(sets, pair).with(rel_at(rels, pair));
        sets[pair] = more;
    }
}

fn set_of(sets: &[RelSet], pair: usize) -> RelSet
    ensures { result ≡ set_at sets.now pair }
{
    match sets.get(pair) {
        Some(set) => *set,
        None => RelSet::none(),
    }
}

fn put_letter(out: &mut Vec<u8>, set: RelSet, rel: Rel) -> Result<(), AllocError>
    ensures { OnOk result (out.new.items ≡ out.old.items ++ map letter_of (filter (has set) (rel ∷ []))) }
{
    if set.has(rel) {
        out.push(rel.letter())?;
    }
    Ok(())
}

fn put_letters(out: &mut Vec<u8>, set: RelSet) -> Result<(), AllocError>
    ensures { OnOk result (out.new.items ≡ out.old.items ++ map letter_of (filter (has set) all_rels)) }
{
    put_letter(out, set, Rel::Equals)?;
    put_letter(out, set, Rel::Includes)?;
    put_letter(out, set, Rel::IncludedIn)?;
    put_letter(out, set, Rel::Overlaps)?;
    put_letter(out, set, Rel::Disjoint)
}

fn put_set(out: &mut Vec<u8>, set: RelSet) -> Result<(), AllocError>
    ensures { OnOk result (out.new.items ≡ out.old.items ++ or_dot (map letter_of (filter (has set) all_rels))) }
{
    if set.is_empty() {
        out.extend_from_slice(b".")
    } else {
        put_letters(out, set)
    }
}

fn put_line(
    out: &mut Vec<u8>,
    alloc: Global,
    problem: &Problem,
    pair: u32,
    set: RelSet,
) -> Result<(), AllocError>
    requires { pair < length (cross_pairs problem.now) }
    ensures { OnOk result (out.new.items ≡ out.old.items ++ seen_line problem.now (has set) pair) }
{
    put_names(out, alloc, problem, pair)?;
    out.extend_from_slice(b" ")?;
    put_set(out, set)?;
    out.extend_from_slice(b"\n")
}

/// Puts a line for each pair across taxonomies: the two names and the letters of its set, or a full stop for none. A pair without
/// a set has none.
pub fn put_sets(
    out: &mut Vec<u8>,
    alloc: Global,
    problem: &Problem,
    sets: &[RelSet],
) -> Result<(), AllocError>
    ensures { OnOk result (out.new.items ≡ out.old.items ++ seen_lines problem.now (λ k. has (set_at sets.now k))) }
{
    for pair in 0..problem.cross_count() {
        put_line(out, alloc, problem, pair, set_of(sets, pair as usize))?;
    }
    Ok(())
}

impl SeenWatcher {
    pub fn new(alloc: Global) -> SeenWatcher
        ensures { IsNew ⟦<SeenWatcher as WorldWatcher>⟧.name ⟦<SeenWatcher as WorldWatcher>⟧.text (codes "seen") seen_report result }
    {
        SeenWatcher {
            sets: Vec::new(alloc),
        }
    }
}

impl WorldWatcher for SeenWatcher {
    ghost use Rattle.std.specs.Prelude.{◌||◌, codes};
    ghost use Rattle.rcc5_core.specs.RelationSet.{has};
    ghost use Rattle.world_watch.specs.Kinds.{is_seen, seen_lines, set_at};

    ghost name = { λ _. codes "seen" };

    ghost text = { λ w p tables. seen_lines p (λ k rel. has (set_at w.sets.items k) rel || is_seen tables k rel) };

    fn is_named(&self, word: &[u8]) -> bool {
        word == b"seen".as_slice()
    }

    fn see(&mut self, problem: &Problem, table: &Position) -> Result<(), AllocError> {
        let count = problem.cross_count();
        grow(&mut self.sets, count)?;
        mark(&mut self.sets, table.rels(), count);
        Ok(())
    }

    fn report(&self, alloc: Global, problem: &Problem) -> Result<Vec<u8>, AllocError> {
        let mut report = Vec::new(alloc);
        put_sets(&mut report, alloc, problem, &self.sets)?;
        Ok(report)
    }
}
