//! A line of a word and a number.
ghost use Rattle.std.specs.Prelude.{◌≡◌, ◌++◌, OnOk};
ghost use Rattle.claims_run.specs.Answering.{count_line};

use std::alloc::{AllocError, Global};

/// Puts a word and how many there are.
pub(crate) fn put_count(
    alloc: Global,
    word: &str,
    count: u64,
    text: &mut Vec<u8>,
) -> Result<(), AllocError>
    ensures { OnOk result (text.new.items ≡ text.old.items ++ count_line word.now count) }
{
    let line = format!(in alloc; "{word} {count}\n")?;
    text.extend_from_slice(line.as_bytes())?;
    Ok(())
}
