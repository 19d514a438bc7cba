//! Tests of two sets, each by one pass over two ascending lists.

ghost use Rattle.std.specs.Prelude.{◌≡◌, IsTrue};
ghost use Rattle.rcc5_core.specs.Relation.{is_in, is_ascending, is_subset, have_common};

// Whether each element of X is one of Y.
pub(crate) fn is_subset(x: &[u32], y: &[u32]) -> bool
    requires left { IsTrue (is_ascending x.now) }
    requires right { IsTrue (is_ascending y.now) }
    ensures { result ≡ is_subset x.now y.now }
{
    let mut i = 0;
    let mut j = 0;
    'merge: while i < x.len() && j < y.len() {
        let a = x[i];
        let b = y[j];
        if a < b {
            return false;
        }
        if b < a {
            j += 1;
        } else {
            i += 1;
            j += 1;
        }
    }
    i == x.len()
}

// Whether X and Y have an element in common.
pub(crate) fn have_common(x: &[u32], y: &[u32]) -> bool
    requires left { IsTrue (is_ascending x.now) }
    requires right { IsTrue (is_ascending y.now) }
    ensures { result ≡ have_common x.now y.now }
{
    let mut i = 0;
    let mut j = 0;
    'merge: while i < x.len() && j < y.len() {
        let a = x[i];
        let b = y[j];
        if a < b {
            i += 1;
        } else if b < a {
            j += 1;
        } else {
            return true;
        }
    }
    false
}

// Whether a number is in a set.
pub(crate) fn is_in(number: u32, set: &[u32]) -> bool
    ensures { result ≡ is_in number set.now }
{
    set.iter().any(|other| number == *other)
}
