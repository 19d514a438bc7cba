//! What a valid certificate is: a tree whose lines name its nodes in order, with the derivation between them.
#![tactic(auto)]

mod laws;
mod parts;
mod samples;

pub use laws::{
    accepted_claims_are_so, accepted_claims_have_trees, accepted_is_a_tree, accepted_is_so,
    accepted_is_the_listing, accepted_shows_all, asked_by_literal, children_narrow,
    claims_put_keep_up, expected_is_next, found_from_the_end, lines_are_nodes,
    missing_tables_are_refuted, put_keeps_up, told_stays_up, walked_is_next,
};
pub use parts::{PartKind, cert_lines_are_nodes};
pub use samples::{
    claims_are_refused, claims_are_settled, down_and_back, faults_come_by_line, headers_are_told,
    needs_are_forced, no_point_is_left, nodes_come_in_order, nothing_is_allowed,
    parts_of_a_listing, split_pairs_branch, worlds_are_shown,
};
use thiserror::Error;

/// Why a line of a certificate is rejected.
#[derive(Debug, Clone, Copy, PartialEq, Eq, Error)]
pub enum RejectKind {
    /// A hint is the id of no live clause.
    #[error("UnknownHint")]
    UnknownHint,
    /// The clause of a hint has two literals or more that may still hold.
    #[error("HintNotUnit")]
    HintNotUnit,
    /// The hints end without a clause that is false.
    #[error("NoConflict")]
    NoConflict,
    /// A live clause has the id.
    #[error("IdUsed")]
    IdUsed,
    /// The switches are not those of the problem, or the start is longer than a table.
    #[error("WrongHeader")]
    WrongHeader,
    /// The need is out of range, or not forced at the node.
    #[error("NeedNotForced")]
    NeedNotForced,
    /// The clause has a literal that may hold where a point of the node is in the need.
    #[error("LiteralNotForced")]
    LiteralNotForced,
    /// The words are no family that meets the problem.
    #[error("FamilyDoesNotMeet")]
    FamilyDoesNotMeet,
    /// The family has another table than the node.
    #[error("FamilyHasOtherTable")]
    FamilyHasOtherTable,
    /// A node is expected, and the line is not about it.
    #[error("MissingBranch")]
    MissingBranch,
    /// No node is expected, and the line is about one.
    #[error("ExtraBranch")]
    ExtraBranch,
    /// The id of the node's clause is that of no live clause.
    #[error("UnknownClause")]
    UnknownClause,
    /// The pair is out of range, or allows something at the node.
    #[error("PairNotEmpty")]
    PairNotEmpty,
    /// The node branches, and there is no pair left to branch on.
    #[error("BranchTooDeep")]
    BranchTooDeep,
    /// The subject names no pair, or has not one flag for each articulation.
    #[error("WrongSubject")]
    WrongSubject,
}
