//! The merged taxonomy of each world, as text.

ghost use Rattle.std.specs.Prelude.{◌≡◌, ◌++◌, length, map, codes, IfOk, OnOk};
ghost use Rattle.rcc5_core.specs.Relation.{letter_of};
ghost use Rattle.world_model.specs.Problem.{pair_count};
ghost use Rattle.merge_print.specs.Merged.{merged_of};
ghost use Rattle.merge_print.specs.Text.{merged_text};
ghost use Rattle.world_watch.specs.Kinds.{merge_part, merge_report};
ghost use Rattle.world_watch.specs.Steps.{IsNew};

use crate::watcher::WorldWatcher;
use constraint_set::Problem;
use merge_print::{merged, merged_text};
use proof_text::put_letters;
use rcc5_core::{Position, Rel};
use std::alloc::{AllocError, Global};

/// Keeps each world's table and the text of its merged taxonomy.
#[derive(Drop)]
pub struct MergeWatcher {
    alloc: Global,
    lines: Vec<u8>,
}

// The text of a world's merged taxonomy.
fn text_of(alloc: Global, problem: &Problem, table: &Position) -> Result<Vec<u8>, AllocError>
    requires { length table.now ≡ pair_count problem.now }
    ensures { IfOk result (λ text. text.items ≡ merged_text problem.now (merged_of problem.now table.now)) }
{
    let taxonomy = merged(alloc, problem, table)?;
    merged_text(alloc, problem, &taxonomy)
}

// Puts the letters of a world's table and the text of its merged taxonomy.
fn put_part(out: &mut Vec<u8>, rels: &[Rel], text: &[u8]) -> Result<(), AllocError>
    ensures { OnOk result (out.new.items ≡ out.old.items ++ codes "world " ++ map letter_of rels.now ++ codes "\n" ++ text.now) }
{
    out.extend_from_slice(b"world ")?;
    put_letters(out, rels)?;
    out.extend_from_slice(b"\n")?;
    out.extend_from_slice(text)
}

fn world_part(alloc: Global, problem: &Problem, table: &Position) -> Result<Vec<u8>, AllocError>
    requires { length table.now ≡ pair_count problem.now }
    ensures { IfOk result (λ part. part.items ≡ merge_part problem.now table.now) }
{
    let text = text_of(alloc, problem, table)?;
    let mut part = Vec::new(alloc);
    put_part(&mut part, table.rels(), &text)?;
    Ok(part)
}

impl MergeWatcher {
    pub fn new(alloc: Global) -> MergeWatcher
        ensures { IsNew ⟦<MergeWatcher as WorldWatcher>⟧.name ⟦<MergeWatcher as WorldWatcher>⟧.text (codes "merge") merge_report result }
    {
        MergeWatcher {
            alloc,
            lines: Vec::new(alloc),
        }
    }
}

impl WorldWatcher for MergeWatcher {
    ghost use Rattle.std.specs.Prelude.{◌++◌, codes, flat_map};
    ghost use Rattle.world_watch.specs.Kinds.{merge_part};

    ghost name = { λ _. codes "merge" };

    ghost text = { λ w p tables. w.lines.items ++ flat_map (merge_part p) tables };

    fn is_named(&self, word: &[u8]) -> bool {
        word == b"merge".as_slice()
    }

    fn see(&mut self, problem: &Problem, table: &Position) -> Result<(), AllocError> {
        let part = world_part(self.alloc, problem, table)?;
        self.lines.extend_from_slice(&part)?;
        Ok(())
    }

    fn report(&self, alloc: Global, _problem: &Problem) -> Result<Vec<u8>, AllocError> {
        Vec::from_slice(alloc, &self.lines)
    }
}
