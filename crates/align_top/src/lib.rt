//! All that the program does.
#![tactic(auto)]

mod top;
mod words;

pub use cert_rules::PartKind;
pub use command_line::{
    Command, Key, KeyKind, UsageKind, WordsFault, command_help, fault_place, key_help, usage_help,
};
pub use run_ends::{PairKind, Status, TEXT_LIMIT, read_front, text_help};
pub use top::run;
pub use words::read_words;
