//! The problem of a seed and a size.
ghost use Rattle.std.specs.Prelude.{◌≡◌, ◌<◌, true, false, IfOk, length, map, codes, ◌∷◌, []};
ghost use Rattle.constraint_set.specs.Facts.{IsAsRead};
ghost use Rattle.trial_run.specs.Names.{trees};
ghost use Rattle.trial_run.specs.Made.{IsSize, problem_from, made};
ghost use Rattle.trial_run.specs.Plans.{IsPlan};

use crate::blocks::{Block, draw_blocks};
use crate::sayings::articulations;
use crate::taxonomy::taxonomy;
use constraint_set::{Problem, Switches};
use std::alloc::{AllocError, Global};
use taxon_tree::Forest;

// The names of the two taxonomies.
fn two_names(alloc: Global) -> Result<Vec<Vec<u8>>, AllocError>
    ensures { IfOk result (λ names. map (λ name. name.items) names.items ≡ codes "1" ∷ codes "2" ∷ []) }
{
    let one = Vec::from_slice(alloc, b"1")?;
    let other = Vec::from_slice(alloc, b"2")?;
    Ok(vec![in alloc; one, other]?)
}

// The two taxonomies of some blocks and single concepts.
fn two_taxonomies(alloc: Global, blocks: &[Block], singles: u32) -> Result<Vec<Forest>, AllocError>
    requires plan { IsPlan blocks.now }
    requires few { singles < 3 }
    ensures { IfOk result (λ forests. forests.items ≡ trees false blocks.now singles ∷ trees true blocks.now singles ∷ []) }
{
    let one = taxonomy(alloc, blocks, singles, false)?;
    let other = taxonomy(alloc, blocks, singles, true)?;
    Ok(vec![in alloc; one, other]?)
}

// The problem of some blocks and single concepts, in which all rules hold.
fn problem_from(alloc: Global, blocks: &[Block], singles: u32) -> Result<Problem, AllocError>
    requires plan { IsPlan blocks.now }
    requires small { length blocks.now < 128 }
    requires few { singles < 3 }
    ensures { IfOk result (λ p. p ≡ problem_from blocks.now singles) }
{
    let forests = two_taxonomies(alloc, blocks, singles)?;
    let said = articulations(alloc, &forests[0], &forests[1], blocks, singles)?;
    let names = two_names(alloc)?;
    let all_on = Switches {
        nonempty: true,
        sibling: true,
        coverage: true,
    };
    Problem::new(alloc, names, forests, said, all_on)
}

/// The problem of a seed and a size, which is how many concepts it has. All rules hold in it.
///
/// Both taxonomies have one root, and under it blocks of a concept with two children, and at most two single concepts. In all blocks
/// but one what is said leaves nothing open.
pub fn make_problem(alloc: Global, seed: u64, size: u32) -> Result<Problem, AllocError>
    requires { IsSize size }
    ensures made { IfOk result (λ p. p ≡ made seed size) }
    ensures as_read { IfOk result (λ p. IsAsRead p) }
{
    let half = size / 2;
    let blocks = draw_blocks(alloc, seed, (half - 1) / 3)?;
    problem_from(alloc, &blocks, (half - 1) % 3)
}
