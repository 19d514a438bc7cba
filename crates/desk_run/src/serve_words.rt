//! All that the desk's program does with its words, a store and a sink.
ghost use Rattle.std.specs.Prelude.{◌≡◌, map, string_bytes};
ghost use Rattle.desk_run.specs.Serving.{IsServe};

use crate::{DeskStatus, put_desk_end, run_desk};
use command_line::{WordsFault, read_desk_words};
use outer_store::{Sink, Store};
use std::alloc::Global;

/// Serves the script that the words behind the program's name ask for, and answers how the run ended. For words that ask for none it puts
/// their first fault.
#[tactic(auto, using(crate::proofs::ServeLemmas::words_rules))]
pub fn serve<S: Store, W: Sink>(
    alloc: Global,
    words: &[String],
    store: &mut S,
    out: &mut W,
) -> DeskStatus
    ensures { IsServe (map string_bytes words.now) result (S.state store.old) (S.state store.new) (W.state out.old) (W.state out.new) }
{
    match read_desk_words(alloc, words) {
        Ok(args) => run_desk(alloc, store, out, &args),
        Err(WordsFault::Usage(kind)) => put_desk_end(alloc, out, DeskStatus::Usage(kind)),
        Err(WordsFault::NoMemory) => put_desk_end(alloc, out, DeskStatus::NoMemory),
    }
}
