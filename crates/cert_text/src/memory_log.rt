//! A log in memory.

ghost use Rattle.std.specs.Prelude.{◌≡◌, [], Some, IfSome, OnOk};
ghost use Rattle.cert_text.specs.Logs.{with_line};

use crate::line::CertLine;
use crate::log::TreeLog;
use outer_store::StoreFault;
use std::alloc::{AllocError, Global};
use std::marker::Model;

/// The log that keeps its lines.
#[derive(Drop)]
pub struct MemoryLog {
    alloc: Global,
    lines: Vec<CertLine>,
    /// Whether a line was refused for want of memory.
    refused: bool,
}

impl Model for MemoryLog {
    ghost use Rattle.std.specs.Prelude.{None, Some, if◌then◌else◌};
    ghost use Rattle.cert_text.specs.Logs.{Told};

    ghost Value = { Told };

    ghost view = { λ log. if log.refused then None else Some log.lines.items };
}

impl MemoryLog {
    /// A log with no lines yet.
    pub fn new(alloc: Global) -> MemoryLog
        ensures { result ≡ Some [] }
    {
        MemoryLog {
            alloc,
            lines: Vec::new(alloc),
            refused: false,
        }
    }

    /// The lines so far, all of them unless one was refused.
    pub fn lines(&self) -> &[CertLine]
        ensures { IfSome self.now (λ lines. result.now ≡ lines) }
    {
        &self.lines
    }

    fn add(&mut self, line: &CertLine) -> Result<(), AllocError>
        ensures ok { OnOk result (self.new ≡ with_line self.old line.now) }
    {
        self.lines.push(line.copy(self.alloc)?)?;
        Ok(())
    }
}

impl TreeLog for MemoryLog {
    ghost use Rattle.std.specs.Prelude.{false, ⊤};

    ghost drops = { λ _. false };

    ghost lines = { λ log. log };

    ghost faults = { λ _. 0 };

    ghost steady = { λ _ _. ⊤ };

    ghost quiet = { λ _ _. ⊤ };

    fn put_line(&mut self, line: &CertLine) -> Result<(), StoreFault> {
        let added = self.add(line);
        if added.is_err() {
            self.refused = true;
            return Err(StoreFault::NoMemory);
        }
        Ok(())
    }

    fn is_dropping(&self) -> bool {
        false
    }

    ghost tells_none = { λ log e. absurd (cc) };

    ghost steady_stays = { λ _. tt };

    ghost steady_joins = { λ _ _ _ _ _. tt };

    ghost quiet_stays = { λ _. tt };

    ghost quiet_joins = { λ _ _ _ _ _. tt };
}
