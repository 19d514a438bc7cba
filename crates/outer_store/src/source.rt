//! What bytes are taken from.
ghost use Rattle.std.specs.Prelude.{◌≡◌, ◌≤◌, ℕ, List, Option, Result, drop, IfOk, OnErr, IfSome, ⊤};
ghost use Rattle.std.specs.Option.{option_map};
ghost use Rattle.std.specs.Io.{ReadsAtMost};
ghost use Rattle.outer_store.specs.Bytes.{Copies};
ghost use Rattle.outer_store.specs.Faults.{Rose, IfFailed};

use crate::StoreFault;

/// Bytes that are taken from front to end.
pub trait Source {
    /// The bytes that are left, where the source tells them.
    ghost left: { Self → Option (List ℕ) };

    /// How often a call failed.
    ghost faults: { Self → ℕ };

    /// The second may have come from the first by calls.
    ghost steady: { Self → Self → Type 0 };

    /// No count of faults moved between the two.
    ghost quiet: { Self → Self → Type 0 };

    /// Copies the first of the bytes left to the front of `into`, and answers how many.
    /// It may copy fewer than there is room for. Bytes of `into` past them may be anything.
    fn take(&mut self, into: &mut [u8]) -> Result<usize, StoreFault>
        ensures room { ReadsAtMost result into.new }
        ensures bytes { IfSome (left self.old) (λ bytes. IfOk result (λ n. Copies bytes n into.new)) }
        ensures ok { IfOk result (λ n. left self.new ≡ option_map (drop n) (left self.old)) }
        ensures err { OnErr result (left self.new ≡ left self.old) }
        ensures cause { IfFailed result (Rose (faults self.old) (faults self.new)) (faults self.new ≡ faults self.old) }
        ensures later { faults self.old ≤ faults self.new }
        ensures steady { steady self.old self.new }
        ensures quiet { IfFailed result ⊤ (quiet self.old self.new) };

    ghost steady_stays: { (s : Self) → steady s s };

    ghost steady_joins: { (a : Self) (b : Self) (c : Self) → steady a b → steady b c → steady a c };

    ghost quiet_stays: { (s : Self) → quiet s s };

    ghost quiet_joins: { (a : Self) (b : Self) (c : Self) → quiet a b → quiet b c → quiet a c };
}
