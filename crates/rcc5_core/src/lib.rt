//! The five relations of RCC-5 on finite sets, sets of relations, what a set of relations forces of
//! a pair's regions, and positions, which are lists of relations.
//!
//! RCC-5 after Randell, Cui and Cohn 1992, continued to empty sets by an order of tests.
#![tactic(auto)]

ghost use Rattle.std.specs.Prelude.{◌≡◌, ◌≢◌, ◌↔◌, ◌+◌, ◌<◌, List, [], ◌∷◌, ◌++◌, length, slice_get, IsTrue, IsSome, IsNone, IfSome, IfNone, IfOk, OnErr, OnOk};
ghost use Rattle.rcc5_core.specs.Relation.{converse_of, letter_of, with_letter};
ghost use Rattle.rcc5_core.specs.RelationSet.{has, no_rels, every_rel, only, both_of, adding, converses, is_empty_set, first_of, next_of};
ghost use Rattle.rcc5_core.specs.Region.{word_at, row_of, forced_regions, fits, is_whole_set, word_by};

mod examples;
mod merge;
mod positions;

pub use examples::{eleven_whole_sets, relations_of_small_sets};
pub use merge::rel_of;
pub use positions::Position;

/// A relation of two sets X and Y, in the order of the table of relations.
#[derive(Clone, Copy, Debug, PartialEq, Eq, PartialOrd, Ord)]
pub enum Rel {
    /// X and Y are the same set, `=`.
    Equals,
    /// Y is a proper subset of X, `>`.
    Includes,
    /// X is a proper subset of Y, `<`.
    IncludedIn,
    /// They have an element in common, and each has one that the other lacks, `x`.
    Overlaps,
    /// They have no element in common, `!`.
    Disjoint,
}

impl Rel {
    /// The relation of Y to X, where this one is that of X to Y.
    pub fn converse(self) -> Rel
        ensures { result ≡ converse_of self }
    {
        match self {
            Rel::Includes => Rel::IncludedIn,
            Rel::IncludedIn => Rel::Includes,
            same => same,
        }
    }

    /// The letter that stands for it: one of `=`, `>`, `<`, `x` and `!`.
    pub fn letter(self) -> u8
        ensures { result ≡ letter_of self }
    {
        match self {
            Rel::Equals => b'=',
            Rel::Includes => b'>',
            Rel::IncludedIn => b'<',
            Rel::Overlaps => b'x',
            Rel::Disjoint => b'!',
        }
    }

    /// The relation that a letter stands for.
    pub fn from_letter(byte: u8) -> Option<Rel>
        ensures { result ≡ with_letter byte }
    {
        match byte {
            b'=' => Some(Rel::Equals),
            b'>' => Some(Rel::Includes),
            b'<' => Some(Rel::IncludedIn),
            b'x' => Some(Rel::Overlaps),
            b'!' => Some(Rel::Disjoint),
            _ => None,
        }
    }

    /// What it says of the three regions.
    pub fn row(self) -> Regions
        ensures { result ≡ row_of self }
    {
        let (left_only, both, right_only) = match self {
            Rel::Equals => (Occupancy::Empty, Occupancy::Free, Occupancy::Empty),
            Rel::Includes => (Occupancy::Occupied, Occupancy::Free, Occupancy::Empty),
            Rel::IncludedIn => (Occupancy::Empty, Occupancy::Free, Occupancy::Occupied),
            Rel::Overlaps => (
                Occupancy::Occupied,
                Occupancy::Occupied,
                Occupancy::Occupied,
            ),
            Rel::Disjoint => (Occupancy::Occupied, Occupancy::Empty, Occupancy::Occupied),
        };
        Regions {
            left_only,
            both,
            right_only,
        }
    }
}

/// A set of relations: for each relation, whether the set has it.
#[derive(Clone, Copy, Debug, PartialEq, Eq)]
pub struct RelSet {
    pub equals: bool,
    pub includes: bool,
    pub included_in: bool,
    pub overlaps: bool,
    pub disjoint: bool,
}

impl RelSet {
    /// The set of no relation.
    pub fn none() -> RelSet
        ensures { result ≡ no_rels }
    {
        RelSet {
            equals: false,
            includes: false,
            included_in: false,
            overlaps: false,
            disjoint: false,
        }
    }

    /// The set of all five.
    pub fn all() -> RelSet
        ensures { result ≡ every_rel }
    {
        RelSet {
            equals: true,
            includes: true,
            included_in: true,
            overlaps: true,
            disjoint: true,
        }
    }

    /// The set of one relation.
    pub fn one(rel: Rel) -> RelSet
        ensures { result ≡ only rel }
    {
        RelSet::none().with(rel)
    }

    /// This set and one more relation.
    pub fn with(self, rel: Rel) -> RelSet
        ensures { result ≡ adding self rel }
    {
        let mut set = self;
        match rel {
            Rel::Equals => set.equals = true,
            Rel::Includes => set.includes = true,
            Rel::IncludedIn => set.included_in = true,
            Rel::Overlaps => set.overlaps = true,
            Rel::Disjoint => set.disjoint = true,
        }
        set
    }

    /// What two sets have in common.
    pub fn meet(self, other: RelSet) -> RelSet
        ensures { result ≡ both_of self other }
    {
        RelSet {
            equals: self.equals && other.equals,
            includes: self.includes && other.includes,
            included_in: self.included_in && other.included_in,
            overlaps: self.overlaps && other.overlaps,
            disjoint: self.disjoint && other.disjoint,
        }
    }

    /// Whether the set has the relation.
    pub fn has(self, rel: Rel) -> bool
        ensures { result ≡ has self rel }
    {
        match rel {
            Rel::Equals => self.equals,
            Rel::Includes => self.includes,
            Rel::IncludedIn => self.included_in,
            Rel::Overlaps => self.overlaps,
            Rel::Disjoint => self.disjoint,
        }
    }

    /// Whether the set has no relation.
    pub fn is_empty(self) -> bool
        ensures { result ≡ is_empty_set self }
    {
        !(self.equals || self.includes || self.included_in || self.overlaps || self.disjoint)
    }

    /// The converses of its relations.
    pub fn converse(self) -> RelSet
        ensures { result ≡ converses self }
    {
        RelSet {
            equals: self.equals,
            includes: self.included_in,
            included_in: self.includes,
            overlaps: self.overlaps,
            disjoint: self.disjoint,
        }
    }

    /// Whether it is the set of all relations that fit what it forces. Eleven sets are.
    pub fn is_whole(self) -> bool
        ensures { result ≡ is_whole_set self }
    {
        let forced = forced(self);
        self == RelSet {
            equals: forced.fits(Rel::Equals),
            includes: forced.fits(Rel::Includes),
            included_in: forced.fits(Rel::IncludedIn),
            overlaps: forced.fits(Rel::Overlaps),
            disjoint: forced.fits(Rel::Disjoint),
        }
    }

    /// The least relation of the set.
    pub fn first(self) -> Option<Rel>
        ensures { result ≡ first_of self }
    {
        if self.equals {
            Some(Rel::Equals)
        } else if self.includes {
            Some(Rel::Includes)
        } else if self.included_in {
            Some(Rel::IncludedIn)
        } else if self.overlaps {
            Some(Rel::Overlaps)
        } else if self.disjoint {
            Some(Rel::Disjoint)
        } else {
            None
        }
    }

    /// The least relation of the set that comes after `rel`.
    pub fn after(self, rel: Rel) -> Option<Rel>
        ensures { result ≡ next_of self rel }
    {
        let later = match rel {
            Rel::Equals => RelSet {
                equals: false,
                ..self
            },
            Rel::Includes => RelSet {
                equals: false,
                includes: false,
                ..self
            },
            Rel::IncludedIn => RelSet {
                equals: false,
                includes: false,
                included_in: false,
                ..self
            },
            Rel::Overlaps => RelSet {
                disjoint: self.disjoint,
                ..RelSet::none()
            },
            Rel::Disjoint => RelSet::none(),
        };
        later.first()
    }
}

/// What is known of a region.
#[derive(Clone, Copy, Debug, PartialEq, Eq)]
pub enum Occupancy {
    /// It has no element.
    Empty,
    /// It has an element.
    Occupied,
    /// Either may be.
    Free,
}

/// A region of a pair of sets X and Y.
#[derive(Clone, Copy, Debug, PartialEq, Eq)]
pub enum Region {
    /// X without Y.
    LeftOnly,
    /// What X and Y have in common.
    Both,
    /// Y without X.
    RightOnly,
}

/// What is known of the three regions of a pair of sets X and Y.
#[derive(Clone, Copy, Debug, PartialEq, Eq)]
pub struct Regions {
    /// X without Y.
    pub left_only: Occupancy,
    /// What X and Y have in common.
    pub both: Occupancy,
    /// Y without X.
    pub right_only: Occupancy,
}

impl Regions {
    /// What is known of one region.
    pub fn at(self, region: Region) -> Occupancy
        ensures { result ≡ word_at self region }
    {
        match region {
            Region::LeftOnly => self.left_only,
            Region::Both => self.both,
            Region::RightOnly => self.right_only,
        }
    }

    /// Whether a relation says of each region that is not free what is known of it.
    pub fn fits(self, rel: Rel) -> bool
        ensures { result ≡ fits self rel }
    {
        let row = rel.row();
        let left_only = self.left_only == Occupancy::Free || self.left_only == row.left_only;
        let both = self.both == Occupancy::Free || self.both == row.both;
        let right_only = self.right_only == Occupancy::Free || self.right_only == row.right_only;
        left_only && both && right_only
    }
}

/// What a set of relations forces of the regions of a pair that allows just these.
pub fn forced(set: RelSet) -> Regions
    ensures { result ≡ forced_regions set }
{
    let free_both = set.equals || set.includes || set.included_in;
    Regions {
        left_only: forced_by(
            set.equals || set.included_in,
            set.includes || set.overlaps || set.disjoint,
        ),
        both: forced_by(free_both || set.disjoint, free_both || set.overlaps),
        right_only: forced_by(
            set.equals || set.includes,
            set.included_in || set.overlaps || set.disjoint,
        ),
    }
}

// What is forced of a region that some relation allows to be empty, and some to be occupied.
fn forced_by(may_be_empty: bool, may_be_occupied: bool) -> Occupancy
    ensures { result ≡ word_by may_be_empty may_be_occupied }
{
    match (may_be_empty, may_be_occupied) {
        (true, false) => Occupancy::Empty,
        (false, true) => Occupancy::Occupied,
        _ => Occupancy::Free,
    }
}
