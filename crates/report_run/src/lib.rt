//! The command that reports on all worlds of a problem: watchers see them, and report.
#![tactic(auto)]

mod asked;
mod putting;
mod reporting;
mod showing;

pub use reporting::run_report;
