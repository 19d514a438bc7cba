//! The desk's program: the real files and standard output, a call of `serve`, and what people are told of how it ended.
#![tactic(auto)]

mod explain;
mod usage;

use desk_run::serve;
use explain::explain;
use outer_store::{FileStore, StdoutSink};
use run_help::given_words;
use std::fs;
use std::process::ExitCode;

fn main(rt: HostRuntime) -> ExitCode {
    // Where standard input, output or error is closed, a file that is opened takes its place, and what is put for people would land in
    // it. So these take such places first: they can't be written to, as what is closed can't.
    let _first = fs::open(&rt, "/dev/null");
    let _second = fs::open(&rt, "/dev/null");
    let _third = fs::open(&rt, "/dev/null");
    let words = match given_words(&rt) {
        Ok(words) => words,
        Err(fault) => return ExitCode::from(fault.code()),
    };
    let mut store = FileStore::new(rt.alloc(), &rt);
    let mut out = StdoutSink::new(&rt);
    let status = serve(rt.alloc(), &words, &mut store, &mut out);
    // How the run ended doesn't hang on whether this could be written.
    let _ = explain(&rt, &words, &status);
    ExitCode::from(status.code())
}
