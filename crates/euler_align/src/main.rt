//! The program: the real files and standard output, a call of `run`, and what people are told of how it ended.
#![tactic(auto)]

mod explain;
mod usage;

use align_top::{Status, run};
use explain::explain;
use outer_store::{FileStore, StdoutSink};
use run_help::{NoWords, given_words};
use std::alloc::AllocError;
use std::fs;
use std::process::ExitCode;
use world_watch::{
    CountWatcher, JsonWatcher, MergeWatcher, SeenWatcher, TallyWatcher, WorldWatcher,
};

// Does what the words ask for, on the files of the system and standard output. Where no memory is found for the watchers,
// nothing is done.
fn run_words(
    rt: &HostRuntime,
    words: &[String],
    store: &mut FileStore<'_, HostRuntime>,
) -> Result<Status, AllocError> {
    let alloc = rt.alloc();
    let mut watchers: Vec<Box<dyn WorldWatcher>> = Vec::new(alloc);
    watchers.push(Box::new(alloc, CountWatcher::new(alloc))?)?;
    watchers.push(Box::new(alloc, TallyWatcher::new(alloc))?)?;
    watchers.push(Box::new(alloc, SeenWatcher::new(alloc))?)?;
    watchers.push(Box::new(alloc, MergeWatcher::new(alloc))?)?;
    watchers.push(Box::new(alloc, JsonWatcher::new(alloc))?)?;
    let mut out = StdoutSink::new(rt);
    Ok(run(alloc, words, store, &mut out, watchers))
}

fn main(rt: HostRuntime) -> ExitCode {
    // Where standard input, output or error is closed, a file that is opened takes its place, and what is put for people would land in
    // it. So these take such places first: they can't be written to, as what is closed can't.
    let _first = fs::open(&rt, "/dev/null");
    let _second = fs::open(&rt, "/dev/null");
    let _third = fs::open(&rt, "/dev/null");
    let words = match given_words(&rt) {
        Ok(words) => words,
        Err(fault) => return ExitCode::from(fault.code()),
    };
    let mut store = FileStore::new(rt.alloc(), &rt);
    let Ok(status) = run_words(&rt, &words, &mut store) else {
        return ExitCode::from(NoWords::NoMemory.code());
    };
    // How the run ended doesn't hang on whether this could be written.
    let _ = explain(&rt, &words, &store, &status);
    ExitCode::from(status.code())
}
