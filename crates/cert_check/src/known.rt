//! Families that met the problem: the claims of a certificate mostly repeat a few of them.

ghost use Rattle.std.specs.Prelude.{◌≡◌, ◌<◌, ◌^◌, [], ◌∷◌, ◌⊎◌, length, Contains, IsTrue};
ghost use Rattle.world_model.specs.Family.{Family as FamilyOf};

use set_family::Family;
use std::alloc::{AllocError, Global};
use std::marker::Model;

/// So many are kept.
const MOST_FAMILIES: usize = 16;

/// Some families, the last ones that were kept.
#[derive(Drop)]
pub(crate) struct Known {
    list: Vec<Family>,
}

impl Model for Known {
    ghost use Rattle.std.specs.Prelude.{List};
    ghost use Rattle.world_model.specs.Family.{Family};

    ghost Value = { List Family };

    ghost view = { λ known. known.list.items };
}

impl Known {
    /// None yet.
    pub(crate) fn new(alloc: Global) -> Known
        ensures { result ≡ [] }
    {
        Known {
            list: Vec::new(alloc),
        }
    }

    /// Whether a family with so many sets is among them.
    pub(crate) fn has(&self, family: &Family, count: u32) -> bool
        requires { length family.now.sets ≡ count }
        ensures { IsTrue result → Contains self.now family.now }
    {
        for known in &self.list {
            if is_same(known, family, count) {
                return true;
            }
        }
        false
    }

    /// Keeps a family, and where there are many already it alone.
    pub(crate) fn keep(&mut self, family: Family) -> Result<(), AllocError>
        ensures { (f : FamilyOf) → Contains self.new f → Contains self.old f ⊎ (f ≡ family) }
    {
        if self.list.len() >= MOST_FAMILIES {
            self.list.clear();
        }
        self.list.push(family)?;
        Ok(())
    }
}

// Whether a family is another one, which has so many sets.
#[tactic(auto, using(crate::proofs::KnownLemmas::same_family))]
fn is_same(known: &Family, family: &Family, count: u32) -> bool
    requires { length family.now.sets ≡ count }
    ensures { IsTrue result → known.now ≡ family.now }
{
    if known.universe() != family.universe() || known.count() != count || count == u32::MAX {
        return false;
    }
    for place in 0..count {
        if known.set(place) != family.set(place) {
            return false;
        }
    }
    true
}
