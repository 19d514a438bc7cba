//! A certificate, read line by line from a source of bytes.
#![tactic(auto)]

mod blocks;
mod fault;
mod gather;
mod laws;
mod mode;
mod reader;
mod spot;

pub use fault::{CertTextFault, CertTextKind};
pub use laws::law_standing_lines_are_read;
pub use reader::CertReader;
