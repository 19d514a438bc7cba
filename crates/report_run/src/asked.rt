//! The watchers that are asked for.
ghost use Rattle.std.specs.Prelude.{◌≡◌, ◌≢◌, ◌↔◌, IsTrue, ◌++◌, ℕ, List, AllPairs, IfOk, OnOk};
ghost use Rattle.std.specs.Option.{option_to_list};
ghost use Rattle.report_run.specs.Reporting.{watched, first_named, asked};
ghost use Rattle.report_run.specs.Steps.{IsFirstNamed};

use command_line::Word;
use std::alloc::{AllocError, Global};
use world_watch::WorldWatcher;

fn is_called(watcher: &Box<dyn WorldWatcher>, kind: &Word) -> bool
    ensures { IsTrue result ↔ (name watcher.now ≡ kind.now) }
{
    watcher.is_named(kind.text().as_bytes())
}

// The place of the first watcher with a name, if there is one.
fn place_of(watchers: &[Box<dyn WorldWatcher>], kind: &Word) -> Option<usize>
    ensures { IsFirstNamed name watchers.now kind.now result }
{
    for (place, watcher) in watchers.iter().enumerate() {
        if is_called(watcher, kind) {
            return Some(place);
        }
    }
    None
}

// Moves the first watcher with a name from one list to another, if there is one.
fn move_named(
    kind: &Word,
    watchers: &mut Vec<Box<dyn WorldWatcher>>,
    found: &mut Vec<Box<dyn WorldWatcher>>,
) -> Result<(), AllocError>
    ensures moved { OnOk result (watched name text found.new.items ≡ watched name text found.old.items ++ option_to_list (first_named (watched name text watchers.old.items) kind.now)) }
    ensures others { (other : List ℕ) → other ≢ kind.now → first_named (watched name text watchers.new.items) other ≡ first_named (watched name text watchers.old.items) other }
{
    let Some(place) = place_of(watchers, kind) else {
        return Ok(());
    };
    found.push(watchers.remove(place))?;
    Ok(())
}

/// The watchers that stand for the names of some kinds, in the order of the names. The others are dropped.
pub(crate) fn asked_for(
    alloc: Global,
    kinds: &[Word],
    mut watchers: Vec<Box<dyn WorldWatcher>>,
) -> Result<Vec<Box<dyn WorldWatcher>>, AllocError>
    requires { AllPairs (λ one other. one ≢ other) kinds.now }
    ensures { IfOk result (λ found. watched name text found.items ≡ asked (watched name text watchers.items) kinds.now) }
{
    let mut found = Vec::new(alloc);
    'kinds: for kind in kinds {
        move_named(kind, &mut watchers, &mut found)?;
    }
    Ok(found)
}
