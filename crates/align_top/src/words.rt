//! The words of the command line, where reports are asked for by the names of watchers.
ghost use Rattle.std.specs.Prelude.{◌≡◌, Ok, Err, IfOk, map, bytes_eq, string_bytes};
ghost use Rattle.command_line.specs.Words.{is_among, request_of, IfUsage};
ghost use Rattle.command_line.specs.Requests.{IsMade};

use command_line::{KnownNames, Request, WordsFault};
use std::alloc::Global;
use world_watch::WorldWatcher;

// The names of watchers.
#[derive(Clone, Copy)]
struct NamesOf<'a> {
    watchers: &'a Vec<Box<dyn WorldWatcher>>,
}

fn has_name(watcher: &Box<dyn WorldWatcher>, word: &str) -> bool
    ensures { result ≡ bytes_eq word.now (name watcher.now) }
{
    watcher.is_named(word.as_bytes())
}

// Whether some watcher has this name.
#[tactic(auto, using(crate::proofs::NameLemmas::known_rules))]
fn is_known(watchers: &Vec<Box<dyn WorldWatcher>>, word: &str) -> bool
    ensures { result ≡ is_among (map name watchers.now.items) word.now }
{
    'watchers: for place in 0..watchers.len() {
        if has_name(&watchers[place], word) {
            return true;
        }
    }
    false
}

impl<'a> KnownNames for NamesOf<'a> {
    ghost names = { λ known. map (λ b. (WorldWatcher-box b).name b.value) known.watchers.now.items };

    fn has(&self, word: &str) -> bool {
        is_known(self.watchers, word)
    }
}

/// What the words after the program's name ask for, or the first of their faults. The watchers are those that a report may ask for.
pub fn read_words(
    alloc: Global,
    words: &[String],
    watchers: &Vec<Box<dyn WorldWatcher>>,
) -> Result<Request, WordsFault>
    ensures request { IfOk result (λ request. request_of (map name watchers.now.items) (map string_bytes words.now) ≡ Ok request) }
    ensures made { IfOk result (IsMade (map name watchers.now.items)) }
    ensures usage { IfUsage result (λ kind. request_of (map name watchers.now.items) (map string_bytes words.now) ≡ Err kind) }
{
    command_line::read_words(alloc, words, &NamesOf { watchers })
}
