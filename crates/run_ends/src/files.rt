//! Files that are written whole.
ghost use Rattle.std.specs.Prelude.{◌≤◌, length};
ghost use Rattle.world_model.specs.Problem.{pair_count};
ghost use Rattle.constraint_set.specs.Facts.{IsAsRead};
ghost use Rattle.run_ends.specs.Token.Token.{token_text};
ghost use Rattle.run_ends.specs.Writes.{IsFileWritten};

use crate::token::print_token;
use constraint_set::Problem;
use outer_store::{Store, StoreFault};
use rcc5_core::Position;
use std::alloc::Global;

/// Makes a name hold these bytes alone.
#[tactic(auto, using(crate::proofs::WrittenLemmas::write_rules))]
pub fn write_file<S: Store>(store: &mut S, name: &str, bytes: &[u8]) -> Result<(), StoreFault>
    ensures { IsFileWritten result name.now bytes.now (S.state store.old) (S.state store.new) }
{
    store.create(name)?;
    store.append(name, bytes)
}

/// Makes a name hold the token of a position alone.
pub fn write_token<S: Store>(
    alloc: Global,
    store: &mut S,
    name: &str,
    problem: &Problem,
    position: &Position,
) -> Result<(), StoreFault>
    requires problem { IsAsRead problem.now }
    requires position { length position.now ≤ pair_count problem.now }
    ensures { IsFileWritten result name.now (token_text problem.now position.now) (S.state store.old) (S.state store.new) }
{
    let token = print_token(alloc, problem, position)?;
    write_file(store, name, &token)
}
