//! Families as a certificate has them.
ghost use Rattle.std.specs.Prelude.{◌≡◌, ◌<◌, ◌^◌, length, All, IfOk, OnOk, IsTrue};
ghost use Rattle.rcc5_core.specs.Relation.{is_ascending};

use cert_text::RawFamily;
use set_family::Family;
use std::alloc::{AllocError, Global};

/// The words of a family, which has a set for each of so many concepts.
pub fn raw_family(alloc: Global, family: &Family) -> Result<RawFamily, AllocError>
    requires { length family.now.sets < 2 ^ 32 }
    ensures raw { IfOk result (λ raw. raw ≡ family.now) }
    ensures ascend { OnOk result (All (λ set. IsTrue (is_ascending set)) family.now.sets) }
{
    let mut lists = Vec::new(alloc);
    for concept in 0..family.count() {
        lists.push(Vec::from_slice(alloc, family.set(concept))?)?;
    }
    Ok(RawFamily::new(family.universe(), lists))
}
