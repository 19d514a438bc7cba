//! What is drawn for each block.
ghost use Rattle.std.specs.Prelude.{◌≡◌, ◌<◌, ◌+◌, IfOk};
ghost use Rattle.trial_run.specs.Draws.{next_draw, form_of, blocks_of};

use std::alloc::{AllocError, Global};

/// What is said of a block: which of its three concepts equal those of their names.
#[derive(Clone, Copy, PartialEq, Eq)]
pub enum Form {
    /// The block itself.
    Loose,
    /// Its two children.
    Children,
    /// The block and its left child.
    WholeAndLeft,
    /// All three, where the left child may be disjoint instead.
    AllThree,
}

/// A block: a concept with two children, counted from 1.
#[derive(Clone, Copy)]
pub struct Block {
    pub number: u32,
    pub is_swapped: bool,
    pub form: Form,
}

const MODULUS: u32 = 65_537;

// The draw after another.
fn next_draw(x: u32) -> u32
    requires { x < 65537 }
    ensures value { result ≡ next_draw x }
    ensures below { result < 65537 }
{
    (75 * x + 74) % MODULUS
}

fn form_of(is_loose: bool, drawn: u32) -> Form
    ensures { result ≡ form_of is_loose drawn }
{
    if is_loose {
        return Form::Loose;
    }
    match drawn / 2 % 3 {
        0 => Form::Children,
        1 => Form::WholeAndLeft,
        _ => Form::AllThree,
    }
}

/// The blocks of a seed, of so many.
pub(crate) fn draw_blocks(alloc: Global, seed: u64, count: u32) -> Result<Vec<Block>, AllocError>
    requires some { 0 < count }
    requires few { count < 256 }
    ensures { IfOk result (λ blocks. blocks.items ≡ blocks_of seed count) }
{
    let mut drawn = next_draw((seed % u64::from(MODULUS)) as u32);
    let loose = 1 + drawn % count;
    let mut blocks = Vec::new(alloc);
    for number in 1..count + 1 {
        drawn = next_draw(drawn);
        blocks.push(Block {
            number,
            is_swapped: drawn % 2 == 1,
            form: form_of(number == loose, drawn),
        })?;
    }
    Ok(blocks)
}
