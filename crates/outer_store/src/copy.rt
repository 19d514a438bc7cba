//! Copying bytes from a place on.
ghost use Rattle.std.specs.Prelude.{◌≡◌, length};
ghost use Rattle.outer_store.specs.Memory.{copied_over, copy_count};

/// Copies bytes from a place on, `step` of them at most, and answers how many.
pub(crate) fn copy_part(bytes: &[u8], place: u64, step: usize, into: &mut [u8]) -> usize
    ensures count { result ≡ copy_count bytes.now place (length into.old) step }
    ensures copied { into.new ≡ copied_over bytes.now place result into.old }
{
    let start = bytes.len().min(place as usize);
    let rest = &bytes[start..];
    let count = rest.len().min(into.len()).min(step);
    into[..count].copy_from_slice(&rest[..count]);
    count
}
