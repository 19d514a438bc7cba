//! The problem text.
#![tactic(auto)]

ghost use Rattle.std.specs.Prelude.{◌≡◌, ◌≢◌, IfOk, IfErr};
ghost use Rattle.constraint_set.specs.Facts.{IsAsRead};
ghost use Rattle.cleantax_text.specs.Reading.{IsProblemText, HasFirstFault};
ghost use Rattle.cleantax_text.specs.ReadsBack.{PrintingReadsBack};
ghost use Rattle.cleantax_text.specs.declared.TextKind.TheVariants.{NoMemory};

mod entries;
mod forms;
mod named;
mod naming;
mod print;
mod reader;
mod text;

pub use crate::named::concept_named;
pub use crate::print::{articulation_text, concept_text, print_problem};
pub use crate::text::MAX_TEXT_LEN;
use constraint_set::Problem;
use std::alloc::{AllocError, Global};
use std::fmt;
use thiserror::Error;
use world_model::Switches;

/// What is wrong with a text.
#[derive(Clone, Copy, Debug, PartialEq, Eq)]
pub enum TextKind {
    NotUtf8,
    BadLine,
    BadName,
    UnknownRelation,
    EmptyBraces,
    RowOutsideTaxonomy,
    ArticulationOutside,
    TaxonomyTwice,
    TaxonomyCount,
    UnknownConcept,
    SameTaxonomy,
    TwoParents,
    ChildTwice,
    Cycle,
    TooManyConcepts,
    TooManyArticulations,
    TooLong,
    NoMemory,
    PartTwice,
}

impl TextKind {
    fn words(self) -> &'static str {
        match self {
            TextKind::NotUtf8 => "a byte is not UTF-8",
            TextKind::BadLine => "a line has none of the forms",
            TextKind::BadName => "a name is empty, too long, or has a control character",
            TextKind::UnknownRelation => "a word is no relation",
            TextKind::EmptyBraces => "braces have no relation",
            TextKind::RowOutsideTaxonomy => "a row stands outside a taxonomy",
            TextKind::ArticulationOutside => "an articulation stands outside its part",
            TextKind::TaxonomyTwice => "a taxonomy stands twice",
            TextKind::TaxonomyCount => "there are fewer than two taxonomies or more than eight",
            TextKind::UnknownConcept => "a concept is not known",
            TextKind::SameTaxonomy => "two concepts are of one taxonomy",
            TextKind::TwoParents => "a concept has two parents",
            TextKind::ChildTwice => "a child stands twice",
            TextKind::Cycle => "a concept is its own ancestor",
            TextKind::TooManyConcepts => "there are more than 1,024 concepts",
            TextKind::TooManyArticulations => "there are more than 4,096 articulations",
            TextKind::TooLong => "the text has more than 1,048,576 bytes",
            TextKind::NoMemory => "out of memory",
            TextKind::PartTwice => "a part of a sum stands twice",
        }
    }
}

// Written out, since `thiserror` would write a call of the formatter for each kind, whose proofs take far longer than that of one.
impl fmt::Display for TextKind {
    fn fmt<W: fmt::Write>(&self, f: &mut fmt::Formatter<W>) -> fmt::Result {
        f.write_str(self.words())
    }
}

impl std::error::Error for TextKind {}

/// What is wrong with a text, and where.
#[derive(Clone, Copy, Debug, PartialEq, Eq, Error)]
#[error("line {line}: {kind}")]
pub struct TextFault {
    /// The line, from 1; and 0 for what is wrong with the text as a whole.
    pub line: u32,
    /// What is wrong.
    pub kind: TextKind,
}

impl From<AllocError> for TextKind {
    ghost from_gives = { λ _ kind. kind ≡ NoMemory };

    fn from(_refused: AllocError) -> TextKind {
        TextKind::NoMemory
    }
}

impl From<AllocError> for TextFault {
    ghost from_gives = { λ _ fault. (fault.line ≡ 0) × (fault.kind ≡ NoMemory) };

    fn from(_refused: AllocError) -> TextFault {
        TextFault {
            line: 0,
            kind: TextKind::NoMemory,
        }
    }
}

/// The problem that a text says, under these switches.
///
/// A text that is no problem is answered by its first fault, with its line. The time follows the length of the text.
pub fn read_problem(alloc: Global, bytes: &[u8], switches: Switches) -> Result<Problem, TextFault>
    ensures problem { IfOk result (λ p. IsProblemText bytes.now switches p) }
    ensures as_read { IfOk result (λ p. IsAsRead p) }
    ensures fault { IfErr result (λ f. f.kind ≢ NoMemory → HasFirstFault bytes.now switches f.line f.kind) }
{
    text::read_problem(alloc, bytes, switches)
}

/// What is printed reads back: the canonical text of a problem that some text says is a text of this problem under the same
/// switches, where it has at most 1,048,576 bytes.
pub fn printing_reads_back()
    ensures { PrintingReadsBack }
{}
