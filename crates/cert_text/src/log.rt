//! Logs: where a search puts the lines of its certificate.

ghost use Rattle.std.specs.Prelude.{◌≡◌, ◌≤◌, ℕ, Bool, true, None, IsOk, OnOk, OnErr, ⊤};
ghost use Rattle.outer_store.specs.Faults.{Rose, IfFailed};
ghost use Rattle.cert_text.specs.Lines.{IdsFromOne};
ghost use Rattle.cert_text.specs.Logs.{Told, IsToldWith};

use crate::line::CertLine;
use outer_store::StoreFault;

/// Where a search puts the lines of its certificate.
pub trait TreeLog {
    /// Whether it drops what it is given.
    ghost drops: { Self → Bool };

    /// The lines so far, where the log tells them.
    ghost lines: { Self → Told };

    /// How often a line was refused by a fault.
    ghost faults: { Self → ℕ };

    /// The second may have come from the first by calls.
    ghost steady: { Self → Self → Type 0 };

    /// No count of faults moved between the two.
    ghost quiet: { Self → Self → Type 0 };

    /// Puts a line at the end. After a refusal the log tells nothing.
    fn put_line(&mut self, line: &CertLine) -> Result<(), StoreFault>
        requires { IdsFromOne line.now }
        ensures ok { OnOk result (IsToldWith (lines self.old) line.now (lines self.new)) }
        ensures err { OnErr result (lines self.new ≡ None) }
        ensures kept { drops self.new ≡ drops self.old }
        ensures cause { IfFailed result (Rose (faults self.old) (faults self.new)) (faults self.new ≡ faults self.old) }
        ensures later { faults self.old ≤ faults self.new }
        ensures steady { steady self.old self.new }
        ensures quiet { IfFailed result ⊤ (quiet self.old self.new) };

    /// Whether the log drops what it is given, so that nobody will read it.
    fn is_dropping(&self) -> bool
        ensures { result ≡ drops self.now };

    /// A log that drops what it is given tells no lines.
    ghost tells_none: { (log : Self) → drops log ≡ true → lines log ≡ None };

    ghost steady_stays: { (log : Self) → steady log log };

    ghost steady_joins: { (a : Self) (b : Self) (c : Self) → steady a b → steady b c → steady a c };

    ghost quiet_stays: { (log : Self) → quiet log log };

    ghost quiet_joins: { (a : Self) (b : Self) (c : Self) → quiet a b → quiet b c → quiet a c };
}

/// The log that drops everything. It refuses no line, and takes no memory.
#[derive(Clone, Copy, Debug, Default)]
pub struct NoLog {}

impl NoLog {
    pub fn new() -> NoLog {
        NoLog {}
    }
}

impl TreeLog for NoLog {
    ghost use Rattle.std.specs.Prelude.{true, None, refl, ⊤};

    ghost drops = { λ _. true };

    ghost lines = { λ _. None };

    ghost faults = { λ _. 0 };

    ghost steady = { λ _ _. ⊤ };

    ghost quiet = { λ _ _. ⊤ };

    fn put_line(&mut self, _line: &CertLine) -> Result<(), StoreFault>
        ensures { IsOk result }
    {
        Ok(())
    }

    fn is_dropping(&self) -> bool {
        true
    }

    ghost tells_none = { λ _ _. refl };

    ghost steady_stays = { λ _. tt };

    ghost steady_joins = { λ _ _ _ _ _. tt };

    ghost quiet_stays = { λ _. tt };

    ghost quiet_joins = { λ _ _ _ _ _. tt };
}
