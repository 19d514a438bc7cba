//! Some of a problem's articulations, and lists of such.
ghost use Rattle.std.specs.Prelude.{Some, length, slice_get, ◌<◌, ◌≡◌};

use std::marker::Model;

/// Some of a problem's articulations: a flag for each, in input order.
#[derive(Drop)]
pub struct Subset {
    flags: Vec<bool>,
}

impl Model for Subset {
    ghost use Rattle.std.specs.Prelude.{Bool, List, ⊤};

    ghost Value = { List Bool };

    ghost view = { λ s. s.flags.items };

    ghost invariant = { λ s. ⊤ };
}

impl Subset {
    /// Those whose flag is true.
    pub(crate) fn new(flags: Vec<bool>) -> Subset
        ensures { result ≡ flags.items }
    {
        Subset { flags }
    }

    /// The flags.
    pub(crate) fn flags(&self) -> &[bool]
        ensures { result.now ≡ self.now }
    {
        &self.flags
    }

    /// Whether an articulation is one of them, by its place.
    pub fn has(&self, index: u32) -> bool
        requires { index < length self.now }
        ensures { slice_get self.now index ≡ Some result }
    {
        self.flags[index as usize]
    }
}

/// All minimal conflicts, and all maximal consistent sets: ascending by their lists of flags, false before true.
#[derive(Drop)]
pub struct Lattice {
    conflicts: Vec<Subset>,
    consistent: Vec<Subset>,
}

impl Model for Lattice {
    ghost use Rattle.conflict_lattice.specs.Subsets.{Subsets};
    ghost use Rattle.std.specs.Prelude.{⊤};

    ghost Value = { Subsets };

    ghost view = { λ l. record { conflicts = l.conflicts.items; consistent = l.consistent.items } };

    ghost invariant = { λ l. ⊤ };
}

impl Lattice {
    /// Of these lists.
    pub(crate) fn new(conflicts: Vec<Subset>, consistent: Vec<Subset>) -> Lattice
        ensures { result ≡ record { conflicts = conflicts.items; consistent = consistent.items } }
    {
        Lattice {
            conflicts,
            consistent,
        }
    }

    /// The minimal conflicts: in conflict, and without any one articulation no more.
    pub fn conflicts(&self) -> &[Subset]
        ensures { result.now ≡ self.now.conflicts }
    {
        &self.conflicts
    }

    /// The maximal consistent sets: they hold together, and with any one articulation more they don't.
    pub fn consistent(&self) -> &[Subset]
        ensures { result.now ≡ self.now.consistent }
    {
        &self.consistent
    }
}
