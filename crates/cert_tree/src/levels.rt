//! The pairs on which a tree branches.

ghost use Rattle.std.specs.Prelude.{◌≡◌, ◌+◌, ◌<◌, ◌^◌, ◌++◌, ◌∷◌, [], if◌then◌else◌, map, filter, length, IfOk, OnOk, Some, slice_get};
ghost use Rattle.world_model.specs.Problem.{pairs, pair_count};
ghost use Rattle.world_model.specs.Node.{pair_at};
ghost use Rattle.cert_tree.specs.Levels.{is_level, depth_of, AreDepths, AreLevels};

use constraint_set::Problem;
use std::alloc::{AllocError, Global};

/// Pairs by their numbers, in order, each once, and for each pair its place among them. Where there are none, both lists may be empty.
#[derive(Drop)]
pub(crate) struct Levels {
    pub(crate) list: Vec<u32>,
    pub(crate) depths: Vec<Option<usize>>,
}

impl Levels {
    /// No pairs.
    pub(crate) fn none(alloc: Global) -> Levels
        ensures list { result.list.items ≡ [] }
        ensures depths { result.depths.items ≡ [] }
    {
        Levels {
            list: Vec::new(alloc),
            depths: Vec::new(alloc),
        }
    }

    /// All pairs, or those that are split: their allowed set is neither empty nor whole.
    pub(crate) fn new(alloc: Global, subject: &Problem, all: bool) -> Result<Levels, AllocError>
        ensures levels { IfOk result (λ levels. AreLevels subject.now levels.list.items levels.depths.items) }
        ensures list { IfOk result (λ levels. map (pair_at subject.now) levels.list.items ≡ filter (is_level subject.now all) (pairs subject.now)) }
    {
        let mut levels = Levels::none(alloc);
        for pair in 0..subject.pair_count() {
            levels.add(pair, is_level(subject, all, pair))?;
        }
        Ok(levels)
    }

    /// Looks at the next pair, and adds it or not.
    fn add(&mut self, pair: u32, is_level: bool) -> Result<(), AllocError>
        requires next { pair ≡ length self.old.depths.items }
        requires depths { AreDepths self.old.list.items self.old.depths.items }
        ensures list { OnOk result (self.new.list.items ≡ self.old.list.items ++ (if is_level then pair ∷ [] else [])) }
        ensures depths { OnOk result (AreDepths self.new.list.items self.new.depths.items) }
        ensures counted { OnOk result (length self.new.depths.items ≡ length self.old.depths.items + 1) }
    {
        if is_level {
            self.depths.push(Some(self.list.len()))?;
            self.list.push(pair)?;
        } else {
            self.depths.push(None)?;
        }
        Ok(())
    }

    /// The place of a pair among them, if it has one.
    pub(crate) fn depth_of(&self, pair: u32) -> Option<usize>
        ensures { result ≡ depth_of self.now.depths.items pair }
    {
        match self.depths.get(pair as usize) {
            Some(depth) => *depth,
            None => None,
        }
    }
}

fn is_level(subject: &Problem, all: bool, pair: u32) -> bool
    requires { pair < pair_count subject.now }
    ensures { result ≡ is_level subject.now all (pair_at subject.now pair) }
{
    let set = subject.allowed(pair);
    all || !(set.is_empty() || set.is_whole())
}
