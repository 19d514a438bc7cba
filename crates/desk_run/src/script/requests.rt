//! What the desk is asked for.
ghost use Rattle.std.specs.Prelude.{◌≡◌};

use rcc5_core::RelSet;
use std::marker::Model;

/// Which statements are kept: a flag for each. It is seen as the list of these.
#[derive(Drop)]
pub struct Flags {
    bits: Vec<bool>,
}

impl Model for Flags {
    ghost use Rattle.std.specs.Prelude.{List, Bool};

    ghost Value = { List Bool };

    ghost view = { λ flags. flags.bits.items };
}

impl Flags {
    pub fn new(bits: Vec<bool>) -> Flags
        ensures { result ≡ bits.items }
    {
        Flags { bits }
    }

    pub fn list(&self) -> &[bool]
        ensures { result.now ≡ self.now }
    {
        &self.bits
    }
}

/// What a slot is to do.
#[derive(Drop)]
pub enum Act {
    /// It opens with the problem as it was read.
    Open,
    /// It keeps just the statements whose flag is true.
    Keep(Flags),
    /// It narrows a pair to a set of relations besides.
    Narrow { pair: u32, set: RelSet },
    /// It shows the next world.
    Next,
    /// It closes.
    Close,
}

/// A request to one slot.
#[derive(Drop)]
pub struct DeskRequest {
    /// From 1 to 16.
    pub slot: u32,
    pub act: Act,
}
