//! What people are told on standard error of an ending that is not good, where one command or another had it.
#![tactic(auto)]

mod files;
mod given;
mod help;
mod line;
mod near;
mod pairs;
mod parts;
mod text;
mod unknown;
mod usage;
mod words;

pub use files::{explain_read, explain_write};
pub use given::{NoWords, given_words};
pub use help::{certificate_help, rejection_help, token_help};
pub use line::{line_of, read_again, show_line};
pub use near::nearest;
pub use pairs::{explain_many, explain_open, explain_pair};
pub use parts::{explain_empty, explain_gap, explain_part, refused_token};
pub use text::explain_text;
pub use unknown::unknown_name;
pub use usage::{asks_for_help, is_given, usage_advice};
pub use words::{command_of, key_of, kind_of, switch_words, value_of};
