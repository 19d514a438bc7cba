//! Plays transcripts of runs over objects in memory, for tests: each file that the words name is a transcript, and what is printed is the
//! transcript as it came out. It comes out as it went in where the program does what the transcript says.
#![tactic(auto)]

mod feeding;
mod last_watcher;
mod own_watcher;
mod stop_watcher;
mod transcript;

use std::{env, fs, io};
use transcript::played;

// Prints a transcript as it comes out.
fn play(rt: &HostRuntime, name: &str) -> io::Result<()> {
    let text = fs::read_to_string(rt, name)?;
    let out = played(rt.alloc(), text.as_str())?;
    print!(rt; "{out}")
}

fn main(rt: HostRuntime) -> Result<(), io::Error> {
    for name in env::args(&rt)?.skip(1) {
        play(&rt, name.as_str())?;
    }
    Ok(())
}
