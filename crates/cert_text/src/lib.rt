//! The lines of a certificate, their text, and the logs in which a search puts them.
#![tactic(auto)]

mod copy;
mod items;
mod kind;
mod laws;
mod line;
mod log;
mod memory_log;
mod pieces;
mod printing;
mod reading;
mod store_log;

pub use copy::{copy_proof, copy_subject};
pub use kind::{LineKind, kind_in};
pub use laws::{law_cert_lines_have_one_text, law_cert_lines_read_back, law_told_lines_are_texts};
pub use line::{CertLine, Flags, RawFamily, Subject};
pub use log::{NoLog, TreeLog};
pub use memory_log::MemoryLog;
pub use pieces::{put_position, put_subject};
pub use printing::print_cert;
pub use reading::{read_cert_line, read_rest};
pub use store_log::StoreLog;
