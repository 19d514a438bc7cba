//! How far two lists of literals are alike.
ghost use Rattle.std.specs.Prelude.{◌≡◌, ◌≤◌, true, length, take};

use lits_core::Lit;

// How many literals two lists begin with alike: first by blocks of sixty-four, then one by one.
pub(crate) fn common_len(one: &[Lit], other: &[Lit]) -> usize
    ensures one { result ≤ length one.now }
    ensures other { result ≤ length other.now }
    ensures same { take result one.now ≡ take result other.now }
{
    let most = one.len().min(other.len());
    let mut len = 0;
    'many: while most - len >= 64 && are_alike(&one[len..len + 64], &other[len..len + 64]) {
        len += 64;
    }
    'single: while len < most && one[len] == other[len] {
        len += 1;
    }
    len
}

// Whether two blocks are the same. There is no branch in the loop, so the compiler may compare many literals at a time.
fn are_alike(one: &[Lit], other: &[Lit]) -> bool
    requires one { length one.now ≡ 64 }
    requires other { length other.now ≡ 64 }
    ensures { result ≡ true → one.now ≡ other.now }
{
    let mut alike = true;
    for place in 0..64 {
        alike &= one[place] == other[place];
    }
    alike
}
