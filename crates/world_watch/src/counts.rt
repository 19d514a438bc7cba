//! A count for each relation.

ghost use Rattle.std.specs.Prelude.{◌≡◌};
ghost use Rattle.world_watch.specs.Counts.{counting, no_counts};

use rcc5_core::Rel;

/// In how many worlds a pair has each relation. A count stays at the last value of a u64.
#[derive(Clone, Copy)]
pub(crate) struct Counts {
    pub(crate) equals: u64,
    pub(crate) includes: u64,
    pub(crate) included_in: u64,
    pub(crate) overlaps: u64,
    pub(crate) disjoint: u64,
}

impl Counts {
    pub(crate) fn none() -> Counts
        ensures { result ≡ no_counts }
    {
        Counts {
            equals: 0,
            includes: 0,
            included_in: 0,
            overlaps: 0,
            disjoint: 0,
        }
    }

    /// These counts and one more world with a relation.
    pub(crate) fn with(self, rel: Rel) -> Counts
        ensures { result ≡ counting self rel }
    {
        let mut counts = self;
        match rel {
            Rel::Equals => counts.equals = self.equals.saturating_add(1),
            Rel::Includes => counts.includes = self.includes.saturating_add(1),
            Rel::IncludedIn => counts.included_in = self.included_in.saturating_add(1),
            Rel::Overlaps => counts.overlaps = self.overlaps.saturating_add(1),
            Rel::Disjoint => counts.disjoint = self.disjoint.saturating_add(1),
        }
        counts
    }
}
