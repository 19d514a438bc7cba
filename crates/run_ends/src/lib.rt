//! How a run of the program ends, and what it reads of a store before it works.
#![tactic(auto)]

mod files;
mod help;
mod lines;
mod names;
mod put;
mod read;
mod texts;
mod token;
mod tokens;
mod worlds;

use cert_reader::CertTextKind;
use cert_rules::{PartKind, RejectKind};
use cleantax_text::TextKind;
use command_line::UsageKind;
pub use files::{write_file, write_token};
pub use help::text_help;
pub use lines::put_lines;
pub use names::{cert_name, pair_name, part_name, reject_name, text_name, token_name};
pub use put::{put_complete, put_end, put_line};
use rcc5_core::Position;
pub use read::{TEXT_LIMIT, read_front};
pub use texts::{bytes_under, problem_under};
pub use token::{TokenFault, TokenKind, Tokens, print_token, printing_reads_back, read_token};
pub use tokens::{position_given, position_under};
pub use worlds::{put_world, put_worlds};

/// Why two words name no pair of concepts.
#[derive(Clone, Copy, Debug, PartialEq, Eq)]
pub enum PairKind {
    /// One of them names no concept.
    UnknownConcept,
    /// Both name one concept.
    SameConcept,
}

/// How a run ended.
#[derive(Drop)]
pub enum Status {
    Done,
    RefusedText {
        line: u32,
        kind: TextKind,
    },
    Usage(UsageKind),
    ReadFault,
    WriteFault,
    /// The budget was used up before this node.
    Cut(Position),
    NoWorld,
    RefusedToken(TokenKind),
    RefusedCert {
        line: u64,
        kind: CertTextKind,
    },
    Rejected {
        line: u64,
        kind: RejectKind,
    },
    NoMemory,
    /// Nothing is in conflict.
    Consistent,
    RefusedPair(PairKind),
    /// There are more articulations than all conflicts are looked for among.
    TooMany,
    /// The statements don't say what was to be explained.
    NotEntailed,
    /// The end of a part isn't above its start.
    EmptyPart,
    /// The certificate of a part, by its number from 1, is refused.
    PartRefused {
        part: u64,
        line: u64,
        kind: PartKind,
    },
    /// No part covers what lies from one position on and below another, or to the end.
    Gap {
        from: Position,
        to: Option<Position>,
    },
}
