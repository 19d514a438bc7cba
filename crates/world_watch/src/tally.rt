//! In how many worlds each pair has each relation.

ghost use Rattle.std.specs.Prelude.{◌≡◌, ◌<◌, ◌≤◌, ◌++◌, ◌∷◌, ℕ, codes, decimal, flat_map, length, map, slice_index_or, OnOk};
ghost use Rattle.std.specs.List.{range_with_len};
ghost use Rattle.rcc5_core.specs.declared.Rel.TheVariants.{Disjoint};
ghost use Rattle.rcc5_core.specs.Relation.{all_rels};
ghost use Rattle.world_model.specs.Problem.{cross_pairs};
ghost use Rattle.cleantax_text.specs.Canonical.{spaced};
ghost use Rattle.world_watch.specs.Counts.{count_in, counting, counts_at};
ghost use Rattle.world_model.specs.Saturated.{saturated};
ghost use Rattle.world_watch.specs.Kinds.{tally_line, tally_report};
ghost use Rattle.world_watch.specs.Steps.{IsNew};

use crate::counts::Counts;
use crate::pair_lines::{put_names, rel_at};
use crate::watcher::WorldWatcher;
use constraint_set::Problem;
use proof_text::print_number;
use rcc5_core::{Position, Rel};
use std::alloc::{AllocError, Global};

/// Counts the worlds in which each pair across taxonomies has each relation, by the pair's number.
#[derive(Drop)]
pub struct TallyWatcher {
    counts: Vec<Counts>,
}

// Adds counts of no world, so that there are as many as are asked for.
fn grow(counts: &mut Vec<Counts>, count: u32) -> Result<(), AllocError>
    ensures same { (k : ℕ) → counts_at counts.new.items k ≡ counts_at counts.old.items k }
    ensures long { OnOk result (count ≤ length counts.new.items) }
{
    for _more in counts.len()..count as usize {
        counts.push(Counts::none())?;
    }
    Ok(())
}

fn counts_of(counts: &[Counts], pair: usize) -> Counts
    ensures { result ≡ counts_at counts.now pair }
{
    match counts.get(pair) {
        Some(counts) => *counts,
        None => Counts::none(),
    }
}

// Counts the relation of each pair.
fn mark(counts: &mut Vec<Counts>, rels: &[Rel], count: u32)
    requires counts { count ≤ length counts.old.items }
    requires rels { count ≤ length rels.now }
    ensures { (k : ℕ) → k < count → counts_at counts.new.items k ≡ counting (counts_at counts.old.items k) (slice_index_or rels.now k Disjoint) }
{
    for pair in 0..count as usize {
        let more = counts_of(counts, pair).with(rel_at(rels, pair));
        counts[pair] = more;
    }
}

fn put_count(out: &mut Vec<u8>, count: u64) -> Result<(), AllocError>
    ensures { OnOk result (out.new.items ≡ out.old.items ++ 32 ∷ decimal (saturated count)) }
{
    out.push(b' ')?;
    print_number(out, count)
}

fn put_counts(out: &mut Vec<u8>, counts: Counts) -> Result<(), AllocError>
    ensures { OnOk result (out.new.items ≡ out.old.items ++ spaced (map (λ rel. decimal (saturated (count_in counts rel))) all_rels)) }
{
    put_count(out, counts.equals)?;
    put_count(out, counts.includes)?;
    put_count(out, counts.included_in)?;
    put_count(out, counts.overlaps)?;
    put_count(out, counts.disjoint)
}

fn put_line(
    out: &mut Vec<u8>,
    alloc: Global,
    problem: &Problem,
    pair: u32,
    counts: Counts,
) -> Result<(), AllocError>
    requires { pair < length (cross_pairs problem.now) }
    ensures { OnOk result (out.new.items ≡ out.old.items ++ tally_line problem.now (count_in counts) pair) }
{
    put_names(out, alloc, problem, pair)?;
    put_counts(out, counts)?;
    out.extend_from_slice(b"\n")
}

fn put_lines(
    out: &mut Vec<u8>,
    alloc: Global,
    problem: &Problem,
    counts: &[Counts],
) -> Result<(), AllocError>
    ensures { OnOk result (out.new.items ≡ out.old.items ++ flat_map (λ k. tally_line problem.now (count_in (counts_at counts.now k)) k) (range_with_len 0 (length (cross_pairs problem.now)))) }
{
    for pair in 0..problem.cross_count() {
        put_line(out, alloc, problem, pair, counts_of(counts, pair as usize))?;
    }
    Ok(())
}

impl TallyWatcher {
    pub fn new(alloc: Global) -> TallyWatcher
        ensures { IsNew ⟦<TallyWatcher as WorldWatcher>⟧.name ⟦<TallyWatcher as WorldWatcher>⟧.text (codes "tally") tally_report result }
    {
        TallyWatcher {
            counts: Vec::new(alloc),
        }
    }
}

impl WorldWatcher for TallyWatcher {
    ghost use Rattle.std.specs.Prelude.{◌+◌, codes};
    ghost use Rattle.world_watch.specs.Counts.{count_in, counts_at};
    ghost use Rattle.world_watch.specs.Kinds.{tally_lines, times};

    ghost name = { λ _. codes "tally" };

    ghost text = { λ w p tables. tally_lines p (λ k rel. count_in (counts_at w.counts.items k) rel + times tables k rel) };

    fn is_named(&self, word: &[u8]) -> bool {
        word == b"tally".as_slice()
    }

    fn see(&mut self, problem: &Problem, table: &Position) -> Result<(), AllocError> {
        let count = problem.cross_count();
        grow(&mut self.counts, count)?;
        mark(&mut self.counts, table.rels(), count);
        Ok(())
    }

    fn report(&self, alloc: Global, problem: &Problem) -> Result<Vec<u8>, AllocError> {
        let mut report = Vec::new(alloc);
        put_lines(&mut report, alloc, problem, &self.counts)?;
        Ok(report)
    }
}
