//! What people are told on standard error of tokens and certificates that are refused.

use cert_reader::CertTextKind;
use cert_rules::RejectKind;
use run_ends::TokenKind;

/// What a fault of a token means, and what to do about it.
pub fn token_help(kind: TokenKind) -> &'static str {
    match kind {
        TokenKind::BadToken =>
            "this is no token; give a file that `align` or `parts` wrote under `token=`",
        TokenKind::OtherProblem => {
            "this token is of another problem; give the problem and the switches that it was made with"
        }
        TokenKind::BadPosition => {
            "the place in this token is not one of this problem; list from the front, or to the end, without this token"
        }
    }
}

/// What a fault of a certificate's text means.
pub fn certificate_help(kind: CertTextKind) -> &'static str {
    match kind {
        CertTextKind::BadLine => {
            "this line has no form that may stand here; the file was changed, or is no certificate"
        }
        CertTextKind::BadNumber => {
            "a number here is missing, too great or has a leading zero; the file was changed"
        }
        CertTextKind::EndsEarly => {
            "the certificate ends before its last line; the run that wrote it did not finish"
        }
        CertTextKind::TooLong => {
            "the certificate is longer than one may be; list in parts with `worlds=` or `nodes=`, each with its own"
        }
    }
}

/// Why a line of a certificate is rejected.
pub fn rejection_help(kind: RejectKind) -> &'static str {
    match kind {
        RejectKind::UnknownHint => "a hint names a clause that isn't there",
        RejectKind::HintNotUnit => {
            "the clause of a hint leaves two literals or more open, so this clause is not shown"
        }
        RejectKind::NoConflict => {
            "the hints lead to no contradiction, so this clause is not shown"
        }
        RejectKind::IdUsed => "a clause with this number is there already",
        RejectKind::WrongHeader => {
            "the certificate is for other switches, or for a problem with more pairs"
        }
        RejectKind::WrongSubject => {
            "this claim is about a pair or a list of statements that the problem doesn't have"
        }
        RejectKind::MissingBranch => {
            "another node should be told of here; one is missing, or they are out of order"
        }
        RejectKind::ExtraBranch => {
            "all nodes have been told of, and this line tells of one more"
        }
        RejectKind::BranchTooDeep => {
            "this node has a relation for each pair already, so nothing is below it"
        }
        RejectKind::NeedNotForced => {
            "nothing asks for a thing in this need, so it does not rule the node out"
        }
        RejectKind::UnknownClause => "there is no clause with this number",
        RejectKind::LiteralNotForced => {
            "this clause is not false at the node, so it does not rule the node out"
        }
        RejectKind::PairNotEmpty => {
            "this pair still allows a relation, so it does not rule the node out"
        }
        RejectKind::FamilyDoesNotMeet => "these sets break a rule or a statement of the problem",
        RejectKind::FamilyHasOtherTable => "these sets show another world than this line names",
    }
}
