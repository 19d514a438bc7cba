//! The desk's requests, and the reader of its script.

ghost use Rattle.std.specs.Prelude.{◌≡◌, All, IfOk};
ghost use Rattle.desk_run.specs.Script.Requests.{IsRequest};
ghost use Rattle.desk_run.specs.Script.Script.{script_result, kind_name, Gives};
ghost use Rattle.desk_run.specs.declared.script.ScriptFault.TheVariants.{NoMemory};

mod acts;
mod forms;
mod lines;
mod requests;

use constraint_set::Problem;
pub use requests::{Act, DeskRequest, Flags};
use std::alloc::{AllocError, AllocFailed, Global};
use std::fmt;
use thiserror::Error;

/// A script has no more bytes than these.
pub const MAX_SCRIPT_LEN: usize = 1_048_576;

/// What is wrong with a script.
#[derive(Clone, Copy, Debug, PartialEq, Eq)]
pub enum ScriptKind {
    TooLong,
    BadLine,
    BadSlot,
    BadBits,
    UnknownConcept,
    SameConcept,
    BadLetters,
}

impl ScriptKind {
    /// Its name, as it is printed.
    pub fn name(self) -> &'static str
        ensures { result.now ≡ kind_name self }
    {
        match self {
            ScriptKind::TooLong => "TooLong",
            ScriptKind::BadLine => "BadLine",
            ScriptKind::BadSlot => "BadSlot",
            ScriptKind::BadBits => "BadBits",
            ScriptKind::UnknownConcept => "UnknownConcept",
            ScriptKind::SameConcept => "SameConcept",
            ScriptKind::BadLetters => "BadLetters",
        }
    }

    // What is wrong, in words for people.
    fn words(self) -> &'static str {
        match self {
            ScriptKind::TooLong => "the script has more than 1,048,576 bytes",
            ScriptKind::BadLine => "a line has none of the forms",
            ScriptKind::BadSlot => "a slot is not a number from 1 to 16",
            ScriptKind::BadBits => "the flags are not a 0 or 1 for each statement",
            ScriptKind::UnknownConcept => "a concept is not known",
            ScriptKind::SameConcept => "two references name the same concept",
            ScriptKind::BadLetters => "a set has a byte that is no letter of a relation",
        }
    }
}

// Written out, since `thiserror` would write a call of the formatter for each kind, which takes far longer to prove than one.
impl fmt::Display for ScriptKind {
    fn fmt<W: fmt::Write>(&self, f: &mut fmt::Formatter<W>) -> fmt::Result {
        f.write_str(self.words())
    }
}

impl std::error::Error for ScriptKind {}

/// Why a script gave no requests.
#[derive(Clone, Copy, Debug, PartialEq, Eq, Error)]
pub enum ScriptFault {
    /// The first fault, with its line from 1; the line is 0 where the script is too long.
    #[error("line {line}: {kind}")]
    Refused { line: u32, kind: ScriptKind },
    #[error("out of memory")]
    NoMemory,
}

impl From<AllocError> for ScriptFault {
    ghost from_gives = { λ _ fault. fault ≡ NoMemory };

    fn from(_refused: AllocError) -> ScriptFault {
        ScriptFault::NoMemory
    }
}

impl<T: Drop> From<AllocFailed<T>> for ScriptFault {
    ghost from_gives = { λ _ fault. fault ≡ NoMemory };

    fn from(_refused: AllocFailed<T>) -> ScriptFault {
        ScriptFault::NoMemory
    }
}

/// The requests of a script to the desk of a problem, line by line.
///
/// A script that is none is answered by its first fault, with its line. Nothing is done before the whole script is read.
pub fn read_script(
    alloc: Global,
    problem: &Problem,
    bytes: &[u8],
) -> Result<Vec<DeskRequest>, ScriptFault>
    ensures exact { Gives result (script_result problem.now bytes.now) }
    ensures fit { IfOk result (λ requests. All (IsRequest problem.now) requests.items) }
{
    if bytes.len() > MAX_SCRIPT_LEN {
        return Err(ScriptFault::Refused {
            line: 0,
            kind: ScriptKind::TooLong,
        });
    }
    lines::read_lines(alloc, problem, bytes)
}
