//! How far two prefixes are alike.
ghost use Rattle.rcc5_core.specs.declared.Rel.TheVariants.{Equals};
ghost use Rattle.std.specs.Prelude.{length, slice_index_or, take, true, ℕ, ◌+◌, ◌<◌, ◌≡◌, ◌≤◌};

use rcc5_core::Rel;

// How many relations two prefixes begin with alike.
pub(crate) fn common_len(one: &[Rel], other: &[Rel]) -> usize
    ensures one { result ≤ length one.now }
    ensures other { result ≤ length other.now }
    ensures same { take result one.now ≡ take result other.now }
{
    let mut count = blocks_alike(one, other);
    while agree_at(one, other, count) {
        count += 1;
    }
    count
}

// How many relations two prefixes begin with alike, as far as whole blocks go.
fn blocks_alike(one: &[Rel], other: &[Rel]) -> usize
    ensures one { result ≤ length one.now }
    ensures other { result ≤ length other.now }
    ensures same { take result one.now ≡ take result other.now }
{
    let mut count = 0;
    while is_block_alike(one, other, count) {
        count += 64;
    }
    count
}

// Whether two prefixes have the same relations in a block of sixty-four from a place on. There is no branch in the loop, so the
// compiler may compare many at a time.
fn is_block_alike(one: &[Rel], other: &[Rel], start: usize) -> bool
    ensures one { result ≡ true → start + 64 ≤ length one.now }
    ensures other { result ≡ true → start + 64 ≤ length other.now }
    ensures same { result ≡ true → (k : ℕ) → start ≤ k → k < start + 64 → slice_index_or one.now k Equals ≡ slice_index_or other.now k Equals }
{
    if one.len() < 64 || other.len() < 64 {
        return false;
    }
    if one.len() - 64 < start || other.len() - 64 < start {
        return false;
    }
    let left = &one[start..start + 64];
    let right = &other[start..start + 64];
    let mut alike = true;
    for place in 0..64 {
        alike &= is_same_rel(left[place], right[place]);
    }
    alike
}

// Whether two relations are the same.
fn is_same_rel(one: Rel, other: Rel) -> bool
    ensures { result ≡ true → one ≡ other }
{
    one == other
}

// Whether two prefixes have the same relation at a place.
fn agree_at(one: &[Rel], other: &[Rel], place: usize) -> bool
    ensures one { result ≡ true → place < length one.now }
    ensures other { result ≡ true → place < length other.now }
    ensures same { result ≡ true → slice_index_or one.now place Equals ≡ slice_index_or other.now place Equals }
{
    place < one.len() && place < other.len() && one[place] == other[place]
}
