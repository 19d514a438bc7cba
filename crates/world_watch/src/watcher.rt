//! What a watcher of worlds is.

ghost use Rattle.std.specs.Prelude.{◌≡◌, ◌↔◌, [], length, IsTrue, IfOk, OnOk, OnErr};
ghost use Rattle.world_model.specs.Problem.{pair_count};
ghost use Rattle.merge_print.specs.Json.{HasUtf8Names};
ghost use Rattle.world_watch.specs.Steps.{HasSeen, AreKept};

use constraint_set::Problem;
use rcc5_core::Position;
use std::alloc::{AllocError, Global};

/// What looks at each world of a listing, and then reports.
pub trait WorldWatcher: Drop {
    ghost use Rattle.std.specs.Prelude.{ℕ, List};
    ghost use Rattle.world_watch.specs.Steps.{Texts};

    // The word that it is called by.
    ghost name: { Self → List ℕ };

    // What it would report of a problem after a further list of worlds, which are given by their tables.
    ghost text: { Self → Texts };

    /// Whether the word is its name.
    fn is_named(&self, word: &[u8]) -> bool
        ensures { IsTrue result ↔ (word.now ≡ name self.now) };

    /// Takes a world into account, by its table.
    fn see(&mut self, problem: &Problem, table: &Position) -> Result<(), AllocError>
        requires names { HasUtf8Names problem.now }
        requires whole { length table.now ≡ pair_count problem.now }
        ensures name { name self.new ≡ name self.old }
        ensures ok { OnOk result (HasSeen problem.now table.now (text self.old) (text self.new)) }
        ensures err { OnErr result (AreKept (text self.old) (text self.new)) };

    /// What it reports of the problem, after all worlds that it saw.
    fn report(&self, alloc: Global, problem: &Problem) -> Result<Vec<u8>, AllocError>
        requires { HasUtf8Names problem.now }
        ensures { IfOk result (λ report. report.items ≡ text self.now problem.now []) };
}
