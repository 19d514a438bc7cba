//! Questions, and what is answered.
use cert_text::Flags;
use conflict_lattice::Lattice;
use mir_report::MirSets;

/// What is asked of a problem.
#[derive(Clone, Copy, PartialEq, Eq)]
pub enum Question {
    /// Which relations remain possible.
    Relations,
    /// What is in conflict.
    Conflicts,
    /// All minimal conflicts, and all maximal sets of articulations that hold together.
    Lattice,
}

/// What is answered.
#[derive(Drop)]
pub enum Answer {
    /// The possible relations of each pair across taxonomies, and whether there is a world.
    Possible { mir: MirSets, some: bool },
    /// All articulations hold together.
    Consistent,
    /// The articulations whose flag is true are the least conflict.
    Conflict(Flags),
    /// All minimal conflicts, and all maximal sets of articulations that hold together.
    Lattice(Lattice),
}
