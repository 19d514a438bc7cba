//! A taxonomy, row by row.
ghost use Rattle.std.specs.Prelude.{◌≡◌, ◌<◌, ◌+◌, ◌∷◌, [], ◌++◌, Ok, IfOk, OnOk, length, map, codes};
ghost use Rattle.taxon_tree.specs.Trees.{IsForest};
ghost use Rattle.taxon_tree.specs.Row.{add_row};
ghost use Rattle.trial_run.specs.Names.{block_name, left_name, right_name, single_name, tops, kids, trees};
ghost use Rattle.trial_run.specs.Plans.{IsPlan};

use crate::blocks::Block;
use constraint_set::MAX_CONCEPTS;
use std::alloc::{AllocError, Global};
use taxon_tree::Forest;

/// The name of a block.
pub(crate) fn block_name(alloc: Global, number: u32) -> Result<Vec<u8>, AllocError>
    ensures { IfOk result (λ name. name.items ≡ block_name number) }
{
    Ok(format!(in alloc; "b{number}")?.into_bytes())
}

/// The name of its left child.
pub(crate) fn left_name(alloc: Global, number: u32) -> Result<Vec<u8>, AllocError>
    ensures { IfOk result (λ name. name.items ≡ left_name number) }
{
    Ok(format!(in alloc; "b{number}l")?.into_bytes())
}

/// The name of its right child.
pub(crate) fn right_name(alloc: Global, number: u32) -> Result<Vec<u8>, AllocError>
    ensures { IfOk result (λ name. name.items ≡ right_name number) }
{
    Ok(format!(in alloc; "b{number}r")?.into_bytes())
}

/// The name of a concept beside the blocks.
pub(crate) fn single_name(alloc: Global, number: u32) -> Result<Vec<u8>, AllocError>
    ensures { IfOk result (λ name. name.items ≡ single_name number) }
{
    Ok(format!(in alloc; "s{number}")?.into_bytes())
}

// The row of the root.
fn top_row(alloc: Global, blocks: &[Block], singles: u32) -> Result<Vec<Vec<u8>>, AllocError>
    requires { singles < 3 }
    ensures { IfOk result (λ row. map (λ name. name.items) row.items ≡ codes "r" ∷ tops blocks.now singles) }
{
    let mut row = Vec::new(alloc);
    row.push(Vec::from_slice(alloc, b"r")?)?;
    for block in blocks {
        row.push(block_name(alloc, block.number)?)?;
    }
    for number in 1..singles + 1 {
        row.push(single_name(alloc, number)?)?;
    }
    Ok(row)
}

// The row of a block.
fn block_row(alloc: Global, block: &Block, swaps: bool) -> Result<Vec<Vec<u8>>, AllocError>
    ensures { IfOk result (λ row. map (λ name. name.items) row.items ≡ block_name block.now.number ∷ kids swaps block.now) }
{
    let whole = block_name(alloc, block.number)?;
    let left = left_name(alloc, block.number)?;
    let right = right_name(alloc, block.number)?;
    if swaps && block.is_swapped {
        Ok(vec![in alloc; whole, right, left]?)
    } else {
        Ok(vec![in alloc; whole, left, right]?)
    }
}

// Takes a row in. No row of a taxonomy that is made has a fault, so that only memory may be wanting.
fn put_row(forest: &mut Forest, row: &[Vec<u8>]) -> Result<(), AllocError>
    requires { 0 < length row.now }
    ensures ok { OnOk result (add_row 1024 forest.old (map (λ name. name.items) row.now) ≡ Ok forest.new) }
    ensures forest { IsForest forest.new }
{
    match forest.add_row(row, MAX_CONCEPTS) {
        Ok(()) => Ok(()),
        Err(_) => Err(AllocError),
    }
}

// Takes in the row of the root.
fn put_top(
    alloc: Global,
    forest: &mut Forest,
    blocks: &[Block],
    singles: u32,
) -> Result<(), AllocError>
    requires { singles < 3 }
    ensures ok { OnOk result (add_row 1024 forest.old (codes "r" ∷ tops blocks.now singles) ≡ Ok forest.new) }
    ensures forest { OnOk result (IsForest forest.new) }
{
    let row = top_row(alloc, blocks, singles)?;
    put_row(forest, &row)
}

// Takes in the row of a block.
fn put_block(
    alloc: Global,
    forest: &mut Forest,
    block: &Block,
    swaps: bool,
) -> Result<(), AllocError>
    ensures ok { OnOk result (add_row 1024 forest.old (block_name block.now.number ∷ kids swaps block.now) ≡ Ok forest.new) }
    ensures forest { OnOk result (IsForest forest.new) }
{
    let row = block_row(alloc, block, swaps)?;
    put_row(forest, &row)
}

/// The taxonomy of some blocks and single concepts, which swaps the children of blocks or doesn't.
pub(crate) fn taxonomy(
    alloc: Global,
    blocks: &[Block],
    singles: u32,
    swaps: bool,
) -> Result<Forest, AllocError>
    requires plan { IsPlan blocks.now }
    requires few { singles < 3 }
    ensures { IfOk result (λ forest. forest ≡ trees swaps blocks.now singles) }
{
    let mut forest = Forest::new(alloc);
    put_top(alloc, &mut forest, blocks, singles)?;
    for block in blocks {
        put_block(alloc, &mut forest, block, swaps)?;
    }
    Ok(forest)
}
