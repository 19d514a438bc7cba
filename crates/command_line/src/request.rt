//! What the words ask for: a command with its arguments, each by its name; and what the desk is given.

use crate::{Word, WordList};
use rcc5_core::RelSet;
use world_model::Switches;

/// What `align` is given: list the possible worlds of the problem in a file.
#[derive(Drop)]
pub struct AlignArgs {
    pub input: Word,
    /// The file for the certificate.
    pub cert: Option<Word>,
    pub switches: Switches,
    /// How many nodes may be visited.
    pub nodes: Option<u64>,
    /// How many worlds may be listed.
    pub worlds: Option<u64>,
    /// The file for the token of the cut.
    pub token: Option<Word>,
    /// The file whose token says where the listing begins.
    pub resume: Option<Word>,
}

/// What `check` is given: check a certificate of the problem in a file.
#[derive(Drop)]
pub struct CheckArgs {
    pub input: Word,
    pub cert: Word,
    pub switches: Switches,
}

/// What `mir`, `conflict` and `lattice` are given: answer a question about the problem in a file by claims.
#[derive(Drop)]
pub struct ClaimsArgs {
    pub input: Word,
    /// The file for the certificate.
    pub cert: Option<Word>,
    pub switches: Switches,
}

/// What `explain` is given: tell why the relation of two concepts of the problem in a file is one of a set.
#[derive(Drop)]
pub struct ExplainArgs {
    pub input: Word,
    /// A concept of the problem, as TAXONOMY.CONCEPT.
    pub left: Word,
    /// Another, as TAXONOMY.CONCEPT.
    pub right: Word,
    /// The relations of which the pair is to have one.
    pub set: RelSet,
    pub switches: Switches,
}

/// What `report` is given: list the possible worlds of the problem in a file, and report of them.
#[derive(Drop)]
pub struct ReportArgs {
    pub input: Word,
    /// The names of the reports.
    pub kinds: WordList,
    pub switches: Switches,
}

/// What `parts` is given: find where the parts of the listing of a problem in a file begin.
#[derive(Drop)]
pub struct PartsArgs {
    pub input: Word,
    /// How many parts there are to be at least, where the listing has so many beginnings.
    pub count: u64,
    /// The name of the tokens' files without the number behind it.
    pub token: Word,
    pub switches: Switches,
}

/// What `part` is given: list the possible worlds of the problem in a file from one position to another.
#[derive(Drop)]
pub struct PartArgs {
    pub input: Word,
    /// The file for the certificate.
    pub cert: Word,
    /// The file whose token says where the part begins.
    pub resume: Option<Word>,
    /// The file whose token says where the part ends.
    pub until: Option<Word>,
    pub switches: Switches,
}

/// What `join` is given: join the certificates of parts to the listing of the problem in a file.
#[derive(Drop)]
pub struct JoinArgs {
    pub input: Word,
    /// The files of the certificates.
    pub certs: WordList,
    pub switches: Switches,
}

/// What `trial` is given: make a problem, list its worlds, and check the certificate of the listing.
#[derive(Clone, Copy)]
pub struct TrialArgs {
    pub seed: u64,
    pub size: u32,
}

/// What the desk is given: the requests in one file are asked of the desk of the problem in another.
#[derive(Drop)]
pub struct DeskArgs {
    pub input: Word,
    /// The file of the script.
    pub script: Word,
    pub switches: Switches,
}

/// A command with its arguments.
#[derive(Drop)]
pub enum Request {
    /// List the possible worlds.
    Align(AlignArgs),
    /// Check a certificate.
    Check(CheckArgs),
    /// Tell which relations of each pair some possible world has.
    Mir(ClaimsArgs),
    /// Find the least set of statements that are in conflict.
    Conflict(ClaimsArgs),
    /// Find all least sets of statements that are in conflict, and all largest that fit together.
    Lattice(ClaimsArgs),
    /// Find the least set of statements from which it follows that the relation of a pair is one of a set.
    Explain(ExplainArgs),
    /// Report of all possible worlds.
    Report(ReportArgs),
    /// Find where the parts of the listing begin.
    Parts(PartsArgs),
    /// List the possible worlds of a part.
    Part(PartArgs),
    /// Join the certificates of parts.
    Join(JoinArgs),
    /// Make a problem and try the program on it.
    Trial(TrialArgs),
}
