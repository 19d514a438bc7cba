//! What is said of the concepts of two taxonomies.
ghost use Rattle.std.specs.Prelude.{◌≡◌, ◌<◌, ◌+◌, ◌∷◌, [], ◌++◌, IfOk, OnOk, length};
ghost use Rattle.std.specs.Prelude.{true, false};
ghost use Rattle.rcc5_core.specs.declared.Rel.TheVariants.{Equals};
ghost use Rattle.rcc5_core.specs.RelationSet.{only};
ghost use Rattle.trial_run.specs.Names.{block_name, left_name, right_name, trees};
ghost use Rattle.trial_run.specs.Made.{said_of, said_by, articulations};
ghost use Rattle.trial_run.specs.Plans.{IsPlan, BothHave, BothHaveBlock};

use crate::blocks::{Block, Form};
use crate::taxonomy::{block_name, left_name, right_name, single_name};
use constraint_set::Articulation;
use rcc5_core::{Rel, RelSet};
use std::alloc::{AllocError, Global};
use taxon_tree::Forest;

// Says something of the concepts with one name.
fn say(
    said: &mut Vec<Articulation>,
    one: &Forest,
    other: &Forest,
    name: &[u8],
    set: RelSet,
) -> Result<(), AllocError>
    requires { BothHave one.now other.now name.now }
    ensures { OnOk result (said.new.items ≡ said.old.items ++ said_of one.now other.now name.now set ∷ []) }
{
    let left = one.find(name).unwrap();
    let right = one.len() + other.find(name).unwrap();
    said.push(Articulation::Pair { left, right, set })?;
    Ok(())
}

fn equal() -> RelSet
    ensures { result ≡ only Equals }
{
    RelSet::one(Rel::Equals)
}

// Says something of the whole of the block with a number.
fn say_of_whole(
    alloc: Global,
    said: &mut Vec<Articulation>,
    one: &Forest,
    other: &Forest,
    number: u32,
    set: RelSet,
) -> Result<(), AllocError>
    requires { BothHave one.now other.now (block_name number) }
    ensures { OnOk result (said.new.items ≡ said.old.items ++ said_of one.now other.now (block_name number) set ∷ []) }
{
    let name = block_name(alloc, number)?;
    say(said, one, other, &name, set)
}

// Says something of the left child of the block with a number.
fn say_of_left(
    alloc: Global,
    said: &mut Vec<Articulation>,
    one: &Forest,
    other: &Forest,
    number: u32,
    set: RelSet,
) -> Result<(), AllocError>
    requires { BothHave one.now other.now (left_name number) }
    ensures { OnOk result (said.new.items ≡ said.old.items ++ said_of one.now other.now (left_name number) set ∷ []) }
{
    let name = left_name(alloc, number)?;
    say(said, one, other, &name, set)
}

// Says something of the right child of the block with a number.
fn say_of_right(
    alloc: Global,
    said: &mut Vec<Articulation>,
    one: &Forest,
    other: &Forest,
    number: u32,
    set: RelSet,
) -> Result<(), AllocError>
    requires { BothHave one.now other.now (right_name number) }
    ensures { OnOk result (said.new.items ≡ said.old.items ++ said_of one.now other.now (right_name number) set ∷ []) }
{
    let name = right_name(alloc, number)?;
    say(said, one, other, &name, set)
}

// Says what the form of a block says of it.
fn say_of_block(
    alloc: Global,
    said: &mut Vec<Articulation>,
    one: &Forest,
    other: &Forest,
    block: &Block,
) -> Result<(), AllocError>
    requires { BothHaveBlock one.now other.now block.now.number }
    ensures { OnOk result (said.new.items ≡ said.old.items ++ said_by one.now other.now block.now.number block.now.form) }
{
    let number = block.number;
    match block.form {
        Form::Loose => say_of_whole(alloc, said, one, other, number, equal()),
        Form::Children => {
            say_of_left(alloc, said, one, other, number, equal())?;
            say_of_right(alloc, said, one, other, number, equal())
        }
        Form::WholeAndLeft => {
            say_of_whole(alloc, said, one, other, number, equal())?;
            say_of_left(alloc, said, one, other, number, equal())
        }
        Form::AllThree => {
            let set = equal().with(Rel::Disjoint);
            say_of_left(alloc, said, one, other, number, set)?;
            say_of_right(alloc, said, one, other, number, equal())?;
            say_of_whole(alloc, said, one, other, number, equal())
        }
    }
}

/// All that is said of two taxonomies, block by block, and then of the concepts beside the blocks.
pub(crate) fn articulations(
    alloc: Global,
    one: &Forest,
    other: &Forest,
    blocks: &[Block],
    singles: u32,
) -> Result<Vec<Articulation>, AllocError>
    requires one { one.now ≡ trees false blocks.now singles }
    requires other { other.now ≡ trees true blocks.now singles }
    requires plan { IsPlan blocks.now }
    requires small { length blocks.now < 128 }
    requires few { singles < 3 }
    ensures { IfOk result (λ said. said.items ≡ articulations one.now other.now blocks.now singles) }
{
    let mut said = Vec::new(alloc);
    for block in blocks {
        say_of_block(alloc, &mut said, one, other, block)?;
    }
    for number in 1..singles + 1 {
        let name = single_name(alloc, number)?;
        say(&mut said, one, other, &name, equal())?;
    }
    Ok(said)
}
