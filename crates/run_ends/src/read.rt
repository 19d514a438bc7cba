//! What a store holds under a name, read in pieces.
ghost use Rattle.std.specs.Prelude.{◌≡◌, ◌<◌, [], length, take, IfOk, IfSome};
ghost use Rattle.outer_store.specs.Faults.{Rose, IfFailed};
ghost use Rattle.outer_store.specs.States.{IsQuiet, OnlyRead};

use outer_store::{Store, StoreFault};
use std::alloc::Global;

/// How many bytes of a problem's text are read: one more than a text may have.
pub const TEXT_LIMIT: usize = 1_048_577;

// How many bytes are asked for at a time.
const PIECE: usize = 4096;

// Adds what the name holds to no bytes, a piece at a time, until its end or until so many bytes are in.
fn read_pieces<S: Store>(
    store: &mut S,
    name: &str,
    limit: usize,
    piece: &mut [u8],
    bytes: &mut Vec<u8>,
) -> Result<(), StoreFault>
    requires room { 0 < length piece.old }
    requires empty { bytes.old.items ≡ [] }
    ensures front { IfSome ((S.state store.old).held name.now) (λ held. IfOk result (λ _. bytes.new.items ≡ take limit held)) }
    ensures only_read { OnlyRead (S.state store.old) (S.state store.new) }
    ensures cause { IfFailed result (Rose ((S.state store.old).reads name.now) ((S.state store.new).reads name.now)) (IsQuiet (S.state store.old) (S.state store.new)) }
{
    'pieces: while bytes.len() < limit {
        let count = store.read(name, bytes.len() as u64, piece)?;
        if count == 0 {
            return Ok(());
        }
        bytes.extend_from_slice(&piece[..count])?;
    }
    bytes.truncate(limit);
    Ok(())
}

/// What the name holds, up to the limit of bytes.
pub fn read_front<S: Store>(
    alloc: Global,
    store: &mut S,
    name: &str,
    limit: usize,
) -> Result<Vec<u8>, StoreFault>
    ensures front { IfSome ((S.state store.old).held name.now) (λ held. IfOk result (λ bytes. bytes.items ≡ take limit held)) }
    ensures only_read { OnlyRead (S.state store.old) (S.state store.new) }
    ensures cause { IfFailed result (Rose ((S.state store.old).reads name.now) ((S.state store.new).reads name.now)) (IsQuiet (S.state store.old) (S.state store.new)) }
{
    let mut piece = [0; PIECE];
    let mut bytes = Vec::new(alloc);
    read_pieces(store, name, limit, &mut piece, &mut bytes)?;
    Ok(bytes)
}
