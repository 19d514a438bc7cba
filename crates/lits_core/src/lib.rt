//! Literals, clauses, bits and derivation lines.
#![tactic(auto)]

ghost use Rattle.std.specs.Prelude.{◌≡◌, ◌+◌, ◌*◌, ◌^◌, ◌<◌, Bool, true, false, length, IfOk, replicate, slice_set, slice_index_or};
ghost use Rattle.lits_core.specs.Literals.{literal_of, variable_of, is_negative, negation_of, lit_true};
ghost use Rattle.lits_core.specs.Derivation.{DerivedClausesFollow, IdsStayDistinct, LiteralsAreSets};

use smallvec::SmallVec;
use std::alloc::{AllocError, Global};
use std::marker::Model;
use thiserror::Error;

/// A variable or its negation, seen as its code: twice the variable, and one more where it is negative.
#[derive(Clone, Copy, PartialEq, Eq, Default, Debug)]
pub struct Lit {
    code: u32,
}

impl Model for Lit {
    ghost use Rattle.std.specs.Prelude.{ℕ, ◌<◌, ◌^◌};

    ghost Value = { ℕ };

    ghost view = { λ lit. lit.code };

    ghost invariant = { λ lit. lit.code < 2 ^ 32 };

    ghost inverse = { λ n. record { code = n } };
}

impl Lit {
    pub fn new(variable: u32, negative: bool) -> Self
        requires { variable < 2 ^ 31 }
        ensures { result ≡ literal_of variable negative }
    {
        Lit {
            code: 2 * variable + u32::from(negative),
        }
    }

    pub fn variable(self) -> u32
        ensures value { result ≡ variable_of self }
        ensures small { result < 2 ^ 31 }
    {
        self.code / 2
    }

    pub fn is_negative(self) -> bool
        ensures { result ≡ is_negative self }
    {
        self.code % 2 == 1
    }

    #[tactic(auto, unfolding(crate::specs::Literals::negation_of))]
    pub fn negate(self) -> Self
        ensures { result ≡ negation_of self }
    {
        if self.is_negative() {
            Lit {
                code: self.code - 1,
            }
        } else {
            Lit {
                code: self.code + 1,
            }
        }
    }

    pub fn code(self) -> u32
        ensures { result ≡ self }
    {
        self.code
    }

    pub fn from_code(code: u32) -> Self
        ensures { result ≡ code }
    {
        Lit { code }
    }

    /// Whether the bits make the literal true.
    #[tactic(auto, unfolding(crate::specs::Literals::lit_true))]
    pub fn true_in(self, bits: &Bits) -> bool
        requires { variable_of self < length bits.now }
        ensures { result ≡ lit_true bits.now self }
    {
        let bit = bits.get(self.variable() as usize);
        if self.is_negative() { !bit } else { bit }
    }
}

/// Literals of which one holds, in the order they were given, repeats and all. Up to eight take no memory of the heap.
#[derive(Debug, Drop)]
pub struct Clause {
    lits: SmallVec<Lit, 8>,
}

impl Model for Clause {
    ghost use Rattle.std.specs.Prelude.{ℕ, List};

    ghost Value = { List ℕ };

    ghost view = { λ clause. clause.lits.items };
}

impl Clause {
    pub fn from_lits(alloc: Global, lits: &[Lit]) -> Result<Self, AllocError>
        ensures { IfOk result (λ clause. clause ≡ lits.now) }
    {
        let lits = SmallVec::from_slice(alloc, lits)?;
        Ok(Clause { lits })
    }

    pub fn lits(&self) -> &[Lit]
        ensures { result.now ≡ self.now }
    {
        self.lits.as_slice()
    }
}

/// Says of each variable whether it holds.
#[derive(Debug, Drop)]
pub struct Bits {
    bits: Vec<bool>,
}

impl Model for Bits {
    ghost use Rattle.std.specs.Prelude.{Bool, List};

    ghost Value = { List Bool };

    ghost view = { λ bits. bits.bits.items };
}

impl Bits {
    /// Bits that are all false.
    pub fn new(alloc: Global, count: usize) -> Result<Self, AllocError>
        ensures { IfOk result (λ bits. bits ≡ replicate count false) }
    {
        let bits = vec![in alloc; false; count]?;
        Ok(Bits { bits })
    }

    pub fn len(&self) -> usize
        ensures { result ≡ length self.now }
    {
        self.bits.len()
    }

    pub fn get(&self, place: usize) -> bool
        requires { place < length self.now }
        ensures { result ≡ slice_index_or self.now place false }
    {
        self.bits[place]
    }

    pub fn set(&mut self, place: usize, bit: bool)
        requires { place < length self.old }
        ensures { self.new ≡ slice_set self.old place bit }
    {
        self.bits[place] = bit;
    }
}

/// The ids of clauses, in order.
#[derive(Debug, Drop)]
pub struct Ids {
    list: Vec<u64>,
}

impl Model for Ids {
    ghost use Rattle.std.specs.Prelude.{ℕ, List};

    ghost Value = { List ℕ };

    ghost view = { λ ids. ids.list.items };
}

impl Ids {
    pub fn new(list: Vec<u64>) -> Self
        ensures { result ≡ list.items }
    {
        Ids { list }
    }

    pub fn list(&self) -> &[u64]
        ensures { result.now ≡ self.now }
    {
        self.list.as_slice()
    }
}

/// A line of a derivation.
#[derive(Debug, Drop)]
pub enum Line {
    /// The clause is live from here on under the id, since the live clauses that the hints name give it.
    Derive { id: u64, lits: Clause, hints: Ids },
    /// The derived clauses of these ids are live no more.
    Forget { ids: Ids },
}

/// What the clause of a hint does once some literals are held false.
#[derive(Debug, Clone, Copy, PartialEq, Eq)]
pub enum Hint {
    /// All of its literals are held false.
    Falsified,
    /// All but this literal are, so it has to hold.
    Implies(Lit),
    /// Two literals or more are not.
    NotUnit,
}

/// Why a line is refused.
#[derive(Debug, Clone, Copy, PartialEq, Eq, Error)]
pub enum LineFault {
    #[error("UnknownHint")]
    UnknownHint,
    #[error("HintNotUnit")]
    HintNotUnit,
    #[error("NoConflict")]
    NoConflict,
    #[error("IdUsed")]
    IdUsed,
    #[error("NoMemory")]
    NoMemory,
}

impl From<AllocError> for LineFault {
    ghost use Rattle.std.specs.Prelude.{◌≡◌};
    ghost use Rattle.lits_core.specs.declared.LineFault.TheVariants.{NoMemory};

    ghost from_gives = { λ _ fault. fault ≡ NoMemory };

    fn from(_: AllocError) -> Self {
        LineFault::NoMemory
    }
}

/// The law that derived clauses follow: what a valid derivation derives is true under all bits that meet the clauses
/// that it began with.
pub fn law_derived_clauses_follow()
    ensures { DerivedClausesFollow }
{}

/// The law that no two live clauses ever share an id.
pub fn law_ids_stay_distinct()
    ensures { IdsStayDistinct }
{}

/// The law that the order and the repeats of a clause's literals never matter.
pub fn law_literals_are_sets()
    ensures { LiteralsAreSets }
{}
