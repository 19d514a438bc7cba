//! What is left of a budget of nodes or of worlds: a count, or none where nothing limits it.
ghost use Rattle.std.specs.Prelude.{◌≡◌, ◌↔◌, ◌≢◌, IsTrue, Some};
ghost use Rattle.world_search.specs.Searching.{FellBy};

/// Whether nothing is left.
pub fn is_spent(left: Option<u64>) -> bool
    ensures { IsTrue result ↔ (left ≡ Some 0) }
{
    matches!(left, Some(0))
}

/// One fewer is left.
pub fn one_less(left: Option<u64>) -> Option<u64>
    requires { left ≢ Some 0 }
    ensures { FellBy left result 1 }
{
    match left {
        None => None,
        Some(left) => Some(left - 1),
    }
}
