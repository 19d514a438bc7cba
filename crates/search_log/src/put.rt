//! Lines put in a log.
ghost use Rattle.std.specs.Prelude.{◌≡◌, None, [], All, OnOk, OnErr};
ghost use Rattle.point_query.specs.Asking.{AskerState};
ghost use Rattle.cert_text.specs.Lines.{IdsFromOne};
ghost use Rattle.cert_text.specs.Logs.{IsToldWith};
ghost use Rattle.search_log.specs.Logging.{AreToldWith, LogGoes, IsFlushed, IsSameButLines};
ghost use Rattle.search_log.specs.Leading.{KeepsLeading, derivation_of};

use crate::copies::copy_lines;
use crate::fault::StepFault;
use cert_text::{CertLine, TreeLog};
use point_query::Asker;
use std::alloc::Global;

/// Puts a line.
pub fn put_one<L: TreeLog>(log: &mut L, line: &CertLine) -> Result<(), StepFault>
    requires { IdsFromOne line.now }
    ensures told { OnOk result (IsToldWith (L.lines log.old) line.now (L.lines log.new)) }
    ensures err { OnErr result (L.lines log.new ≡ None) }
    ensures leads { (asker : AskerState) → derivation_of line.now ≡ [] → KeepsLeading (L.lines log.old) (L.lines log.new) asker asker }
    ensures log { LogGoes L.drops L.lines L.faults L.steady L.quiet result log.old log.new }
{
    log.put_line(line)?;
    Ok(())
}

// Puts lines.
fn put_all<L: TreeLog>(log: &mut L, lines: &[CertLine]) -> Result<(), StepFault>
    requires { All IdsFromOne lines.now }
    ensures told { OnOk result (AreToldWith (L.lines log.old) lines.now (L.lines log.new)) }
    ensures err { OnErr result (L.lines log.new ≡ None) }
    ensures log { LogGoes L.drops L.lines L.faults L.steady L.quiet result log.old log.new }
{
    for each in lines {
        put_one(log, each)?;
    }
    Ok(())
}

/// Puts the lines that wait, or drops them where the log would.
#[tactic(auto, using(crate::proofs::Logs::cleared_same, crate::proofs::Logs::unchanged_same))]
pub fn put_waiting<L: TreeLog>(
    alloc: Global,
    asker: &mut Asker,
    log: &mut L,
) -> Result<(), StepFault>
    ensures same { IsSameButLines asker.old asker.new }
    ensures flushed { IsFlushed result (L.lines log.old) (L.lines log.new) asker.old asker.new }
    ensures leads { KeepsLeading (L.lines log.old) (L.lines log.new) asker.old asker.new }
    ensures log { LogGoes L.drops L.lines L.faults L.steady L.quiet result log.old log.new }
{
    if log.is_dropping() {
        asker.clear_lines();
        return Ok(());
    }
    asker.facts();
    let lines = copy_lines(alloc, asker.lines())?;
    asker.clear_lines();
    put_all(log, &lines)
}
