//! The exit code of a status, and how faults are printed.
ghost use Rattle.std.specs.Prelude.{◌≡◌};
ghost use Rattle.run_ends.specs.Ends.{code_of, text_name, token_name, cert_name, reject_name, pair_name, part_name};

use crate::token::TokenKind;
use crate::{PairKind, Status};
use cert_reader::CertTextKind;
use cert_rules::{PartKind, RejectKind};
use cleantax_text::TextKind;

impl Status {
    /// The exit code.
    pub fn code(&self) -> u8
        ensures { result ≡ code_of self.now }
    {
        match self {
            Status::Done => 0,
            Status::RefusedText { .. } => 1,
            Status::Usage(_) => 2,
            Status::ReadFault => 3,
            Status::WriteFault => 4,
            Status::Cut(_) => 5,
            Status::NoWorld => 6,
            Status::RefusedToken(_) | Status::RefusedCert { .. } => 7,
            Status::Rejected { .. } => 8,
            Status::NoMemory => 9,
            Status::Consistent => 10,
            Status::RefusedPair(_) => 12,
            Status::TooMany => 13,
            Status::NotEntailed => 14,
            Status::EmptyPart => 15,
            Status::PartRefused { .. } => 16,
            Status::Gap { .. } => 17,
        }
    }
}

/// The name of a text's fault, as it is printed.
pub fn text_name(kind: TextKind) -> &'static str
    ensures { result.now ≡ text_name kind }
{
    match kind {
        TextKind::NotUtf8 => "NotUtf8",
        TextKind::BadLine => "BadLine",
        TextKind::BadName => "BadName",
        TextKind::UnknownRelation => "UnknownRelation",
        TextKind::EmptyBraces => "EmptyBraces",
        TextKind::RowOutsideTaxonomy => "RowOutsideTaxonomy",
        TextKind::ArticulationOutside => "ArticulationOutside",
        TextKind::TaxonomyTwice => "TaxonomyTwice",
        TextKind::TaxonomyCount => "TaxonomyCount",
        TextKind::UnknownConcept => "UnknownConcept",
        TextKind::SameTaxonomy => "SameTaxonomy",
        TextKind::TwoParents => "TwoParents",
        TextKind::ChildTwice => "ChildTwice",
        TextKind::Cycle => "Cycle",
        TextKind::TooManyConcepts => "TooManyConcepts",
        TextKind::TooManyArticulations => "TooManyArticulations",
        TextKind::TooLong => "TooLong",
        TextKind::NoMemory => "NoMemory",
        TextKind::PartTwice => "PartTwice",
    }
}

/// The name of a token's fault, as it is printed.
pub fn token_name(kind: TokenKind) -> &'static str
    ensures { result.now ≡ token_name kind }
{
    match kind {
        TokenKind::BadToken => "BadToken",
        TokenKind::OtherProblem => "OtherProblem",
        TokenKind::BadPosition => "BadPosition",
    }
}

/// The name of a fault of a certificate's text, as it is printed.
pub fn cert_name(kind: CertTextKind) -> &'static str
    ensures { result.now ≡ cert_name kind }
{
    match kind {
        CertTextKind::BadLine => "BadLine",
        CertTextKind::BadNumber => "BadNumber",
        CertTextKind::EndsEarly => "EndsEarly",
        CertTextKind::TooLong => "TooLong",
    }
}

/// The name of the kind of a rejection, as it is printed.
pub fn reject_name(kind: RejectKind) -> &'static str
    ensures { result.now ≡ reject_name kind }
{
    match kind {
        RejectKind::UnknownHint => "UnknownHint",
        RejectKind::HintNotUnit => "HintNotUnit",
        RejectKind::NoConflict => "NoConflict",
        RejectKind::IdUsed => "IdUsed",
        RejectKind::WrongHeader => "WrongHeader",
        RejectKind::NeedNotForced => "NeedNotForced",
        RejectKind::LiteralNotForced => "LiteralNotForced",
        RejectKind::FamilyDoesNotMeet => "FamilyDoesNotMeet",
        RejectKind::FamilyHasOtherTable => "FamilyHasOtherTable",
        RejectKind::MissingBranch => "MissingBranch",
        RejectKind::ExtraBranch => "ExtraBranch",
        RejectKind::UnknownClause => "UnknownClause",
        RejectKind::PairNotEmpty => "PairNotEmpty",
        RejectKind::BranchTooDeep => "BranchTooDeep",
        RejectKind::WrongSubject => "WrongSubject",
    }
}

/// The name of a pair's fault, as it is printed.
pub fn pair_name(kind: PairKind) -> &'static str
    ensures { result.now ≡ pair_name kind }
{
    match kind {
        PairKind::UnknownConcept => "UnknownConcept",
        PairKind::SameConcept => "SameConcept",
    }
}

/// The name of why the certificate of a part is refused, as it is printed.
pub fn part_name(kind: PartKind) -> &'static str
    ensures { result.now ≡ part_name kind }
{
    match kind {
        PartKind::Text(kind) => cert_name(kind),
        PartKind::Rejected(kind) => reject_name(kind),
    }
}
