//! The lines of a certificate.

ghost use Rattle.std.specs.Prelude.{◌≡◌, map};

use lits_core::Line;
use rcc5_core::{Position, Rel};
use std::marker::Model;
use world_model::Switches;

/// The words of a family as they stand: a number, and a list of numbers for each concept.
///
/// Nothing is known of them: whether they are sets of numbers below the first one, and as many as there are concepts,
/// is for the reader of the certificate to judge.
#[derive(Drop)]
pub struct RawFamily {
    universe: u32,
    lists: Vec<Vec<u32>>,
}

impl Model for RawFamily {
    ghost use Rattle.std.specs.Prelude.{map};
    ghost use Rattle.world_model.specs.Family.{Family};

    ghost Value = { Family };

    ghost view = { λ f. record { universe = f.universe; sets = map (λ v. v.items) f.lists.items } };
}

impl RawFamily {
    pub fn new(universe: u32, lists: Vec<Vec<u32>>) -> RawFamily
        ensures { result ≡ record { universe = universe; sets = map (λ v. v.items) lists.items } }
    {
        RawFamily { universe, lists }
    }

    /// The number that stands before the lists.
    pub fn universe(&self) -> u32
        ensures { result ≡ self.now.universe }
    {
        self.universe
    }

    /// The lists in their order.
    pub fn lists(&self) -> &[Vec<u32>]
        ensures { map (λ v. v.items) result.now ≡ self.now.sets }
    {
        &self.lists
    }

    /// The number and the lists, handed over.
    pub fn into_parts(self) -> (u32, Vec<Vec<u32>>)
        ensures number { result.0 ≡ self.universe }
        ensures lists { map (λ v. v.items) result.1.items ≡ self.sets }
    {
        (self.universe, self.lists)
    }
}

/// A bit for each articulation, in input order: whether it is kept.
#[derive(Debug, Drop)]
pub struct Flags {
    list: Vec<bool>,
}

impl Model for Flags {
    ghost use Rattle.std.specs.Prelude.{Bool, List};

    ghost Value = { List Bool };

    ghost view = { λ flags. flags.list.items };
}

impl Flags {
    pub fn new(list: Vec<bool>) -> Flags
        ensures { result ≡ list.items }
    {
        Flags { list }
    }

    pub fn list(&self) -> &[bool]
        ensures { result.now ≡ self.now }
    {
        &self.list
    }
}

/// What a claim is about: the problem with a pair narrowed to one relation, or with some articulations kept.
#[derive(Drop)]
pub enum Subject {
    Narrowed { pair: u32, rel: Rel },
    Kept(Flags),
}

/// A line of a certificate.
///
/// A line of the tree names its node by its depth and the last relation on the way to it, which the root lacks.
#[derive(Drop)]
pub enum CertLine {
    /// The first line of a listing from a position on.
    Certificate {
        switches: Switches,
        from: Position,
    },
    /// The first line of a list of claims.
    Claims {
        switches: Switches,
    },
    /// A line of the derivation.
    Proof(Line),
    /// The node branches.
    Branch {
        depth: u32,
        last: Option<Rel>,
    },
    /// The node's need, given by its number, has no point, by a clause.
    NoPoint {
        depth: u32,
        last: Option<Rel>,
        need: u64,
        clause: u64,
    },
    /// The pair allows nothing at the node.
    NoRelation {
        depth: u32,
        last: Option<Rel>,
        pair: u32,
    },
    /// The node is a world, which a family shows.
    World {
        depth: u32,
        last: Option<Rel>,
        family: RawFamily,
    },
    /// A family meets the subject.
    Holds {
        subject: Subject,
        family: RawFamily,
    },
    /// No family meets the subject: a tree follows.
    Fails {
        subject: Subject,
    },
    /// The tree ends before a node, or is whole.
    End(Option<Position>),
    /// The tree is left unfinished, and nothing is claimed.
    Quit,
    /// The claims end.
    Done,
}
