//! Reading and writing through a store.

use outer_store::{Store, StoreFault};
use std::alloc::{AllocError, Global};

const PIECE: usize = 65536;

/// A decimal number, 0 where it is none.
pub fn number(text: &str) -> u32 {
    text.parse().unwrap_or(0)
}

// Reads pieces up to the end of the name or to the budget, and counts their bytes.
fn read_pieces<S: Store>(
    store: &mut S,
    name: &str,
    piece: &mut [u8],
    pieces: u32,
) -> Result<u64, StoreFault> {
    let mut total: u64 = 0;
    for _ in 0..pieces {
        let count = store.read(name, total, piece)?;
        if count == 0 {
            return Ok(total);
        }
        total = total.saturating_add(count as u64);
    }
    Ok(total)
}

/// What came of reading the name.
pub fn read<S: Store>(
    alloc: Global,
    store: &mut S,
    name: &str,
    pieces: u32,
) -> Result<String, AllocError> {
    let mut piece = vec![in alloc; 0u8; PIECE]?;
    match read_pieces(store, name, &mut piece, pieces) {
        Ok(total) => format!(in alloc; "read {total}"),
        Err(StoreFault::Failed) => format!(in alloc; "failed"),
        Err(StoreFault::NoMemory) => Err(AllocError),
    }
}

// Makes the name hold so many pieces.
fn write_pieces<S: Store>(
    store: &mut S,
    name: &str,
    piece: &[u8],
    pieces: u32,
) -> Result<(), StoreFault> {
    store.create(name)?;
    for _ in 0..pieces {
        store.append(name, piece)?;
    }
    Ok(())
}

/// What came of writing the name.
pub fn write<S: Store>(
    alloc: Global,
    store: &mut S,
    name: &str,
    pieces: u32,
) -> Result<String, AllocError> {
    let piece = vec![in alloc; b'x'; PIECE]?;
    match write_pieces(store, name, &piece, pieces) {
        Ok(()) => format!(in alloc; "wrote {pieces}"),
        Err(StoreFault::Failed) => format!(in alloc; "failed"),
        Err(StoreFault::NoMemory) => Err(AllocError),
    }
}

/// The bytes of a file, up to 4 MiB.
pub fn bytes_of<S: Store>(alloc: Global, store: &mut S, name: &str) -> Result<Vec<u8>, StoreFault> {
    let mut bytes = Vec::new(alloc);
    let mut piece = vec![in alloc; 0u8; 65536]?;
    'pieces: for _ in 0..64 {
        let count = store.read(name, bytes.len() as u64, &mut piece)?;
        if count == 0 {
            return Ok(bytes);
        }
        bytes.extend_from_slice(&piece[..count])?;
    }
    Ok(bytes)
}
