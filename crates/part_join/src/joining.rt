//! The join of parts.

ghost use Rattle.std.specs.Prelude.{◌≡◌, map, string_bytes};
ghost use Rattle.outer_store.specs.States.{IsQuiet};
ghost use Rattle.cert_reader.specs.Bytes.{ForSome};
ghost use Rattle.part_join.specs.Joining.{IsJoin, MayHoldAll, SomeRose, IfReadFault};

use crate::fault::JoinFault;
use crate::reading::read_parts;
use crate::sweep::sweep;
use constraint_set::Problem;
use outer_store::Store;
use rcc5_core::Position;
use std::alloc::Global;
use std::marker::Model;

/// All possible worlds, in their order.
#[derive(Drop)]
pub struct Joined {
    worlds: Vec<Position>,
}

impl Model for Joined {
    ghost use Rattle.std.specs.Prelude.{List};
    ghost use Rattle.rcc5_core.specs.declared.Rel.{Rel};

    ghost Value = { List (List Rel) };

    ghost view = { λ joined. joined.worlds.items };
}

impl Joined {
    pub(crate) fn new(worlds: Vec<Position>) -> Joined
        ensures { result ≡ worlds.items }
    {
        Joined { worlds }
    }

    pub fn worlds(&self) -> &[Position]
        ensures { result.now ≡ self.now }
    {
        &self.worlds
    }
}

/// Checks the certificates under some names, each by itself, and joins what they list: all possible worlds, or the first file
/// that is refused, or the first gap. The files may come in any order, and overlap.
pub fn join<S: Store>(
    alloc: Global,
    problem: &Problem,
    store: &mut S,
    names: &[String],
) -> Result<Joined, JoinFault>
    ensures answer { ForSome (MayHoldAll (S.state store.old).held (map string_bytes names.now)) (λ files. IsJoin problem.now files result) }
    ensures contents { (S.state store.new).held ≡ (S.state store.old).held }
    ensures cause { IfReadFault result (SomeRose (map string_bytes names.now) (S.state store.old).reads (S.state store.new).reads) (IsQuiet (S.state store.old) (S.state store.new)) }
{
    match read_parts(alloc, problem, store, names) {
        Ok(parts) => sweep(alloc, parts),
        Err(fault) => Err(fault),
    }
}
