//! A script is served: a problem and a script for its desk are read, and the replies are put. This is all that the desk's program does with
//! its words, a store and a sink. The desk itself does no input or output.
#![tactic(auto)]

ghost use Rattle.std.specs.Prelude.{◌≡◌};
ghost use Rattle.desk_run.specs.Ends.{desk_code_of};

mod asked;
mod desk;
mod ends;
mod replies;
mod running;
mod script;
mod serve_words;
mod serving;

use cleantax_text::TextKind;
pub use command_line::DeskArgs;
use command_line::UsageKind;
pub use desk::{Desk, Reply, slots_answer_alone, slots_stay_apart};
pub use ends::put_desk_end;
pub use running::run_desk;
pub use script::{Act, DeskRequest, Flags, MAX_SCRIPT_LEN, ScriptFault, ScriptKind, read_script};
pub use serve_words::serve;

/// How a run of the desk ended.
#[derive(Clone, Copy)]
pub enum DeskStatus {
    /// Each request has its reply.
    Done,
    RefusedText { line: u32, kind: TextKind },
    Usage(UsageKind),
    ReadFault,
    WriteFault,
    /// The first fault of the script, with its line.
    RefusedScript { line: u32, kind: ScriptKind },
    NoMemory,
}

impl DeskStatus {
    /// The exit code.
    pub fn code(&self) -> u8
        ensures { result ≡ desk_code_of self.now }
    {
        match self {
            DeskStatus::Done => 0,
            DeskStatus::RefusedText { .. } => 1,
            DeskStatus::Usage(_) => 2,
            DeskStatus::ReadFault => 3,
            DeskStatus::WriteFault => 4,
            DeskStatus::RefusedScript { .. } => 7,
            DeskStatus::NoMemory => 9,
        }
    }
}
