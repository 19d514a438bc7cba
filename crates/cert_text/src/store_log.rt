//! A log over a store.

ghost use Rattle.std.specs.Prelude.{◌≡◌, [], ◌≤◌, false, None, OnOk, OnErr, ⊤};
ghost use Rattle.outer_store.specs.Bytes.{added};
ghost use Rattle.outer_store.specs.Faults.{Rose, IfFailed};
ghost use Rattle.outer_store.specs.States.{IsQuiet, OnlyWritten};
ghost use Rattle.cert_text.specs.Lines.{IdsFromOne};
ghost use Rattle.cert_text.specs.Logs.{lines_held, IsToldWith};
ghost use Rattle.cert_text.specs.StoreLogs.{log_store, log_name, waiting_text, is_refused, log_lines, log_faults, log_steady, log_quiet};

use crate::line::CertLine;
use crate::log::TreeLog;
use crate::printing::put_whole;
use outer_store::{Store, StoreFault};

/// How many bytes of lines wait at most before they are appended, but for those of the last line. By one call a line, the
/// system would take a third of the time of a run that writes a certificate.
const BLOCK: usize = 65_536;

/// The log that prints lines to the end of what a name of a store holds, by one `append` for some 64 KiB of them.
///
/// It owns nothing that has to be dropped: so the store that it borrowed is known to be as the log's last call left it.
#[derive(Drop)]
pub struct StoreLog<'a, S: Store> {
    store: &'a mut S,
    name: &'a str,
    /// The text of lines that wait to be appended.
    text: &'a mut Vec<u8>,
    /// Whether a line was refused.
    refused: bool,
}

impl<'a, S: Store> StoreLog<'a, S> {
    /// A log that goes on behind what the name holds. Lines wait in `text`, which is cleared first; only `finish` makes sure
    /// that none waits any more.
    pub fn new(store: &'a mut S, name: &'a str, text: &'a mut Vec<u8>) -> Self
        ensures same_reference { (log_store result).ghost_name ≡ store.entry.ghost_name }
        ensures store { (log_store result).now ≡ store.old }
        ensures name { log_name result ≡ name.entry }
        ensures refused { is_refused result ≡ false }
        ensures told { log_lines S.state result ≡ lines_held false ((S.state store.old).held name.now) }
    {
        text.clear();
        StoreLog {
            store,
            name,
            text,
            refused: false,
        }
    }

    /// Appends the lines that wait. After a refusal the log tells nothing.
    pub fn finish(&mut self) -> Result<(), StoreFault>
        ensures same { OnOk result (log_lines S.state self.new ≡ log_lines S.state self.old) }
        ensures none_waits { OnOk result (waiting_text self.new ≡ []) }
        ensures err { OnErr result (log_lines S.state self.new ≡ None) }
        ensures cause { IfFailed result (Rose (log_faults S.state self.old) (log_faults S.state self.new)) (log_faults S.state self.new ≡ log_faults S.state self.old) }
        ensures later { log_faults S.state self.old ≤ log_faults S.state self.new }
        ensures steady { log_steady S.state self.old self.new }
        ensures quiet { IfFailed result ⊤ (log_quiet S.state self.old self.new) }
    {
        let put = append_waiting(self.store, self.name, self.text);
        if put.is_err() {
            self.refused = true;
        }
        put
    }
}

// Adds the text that waits to what a name holds.
fn append_waiting<S: Store>(store: &mut S, name: &str, text: &mut Vec<u8>) -> Result<(), StoreFault>
    ensures same { OnOk result (added ((S.state store.new).held name.now) text.new.items ≡ added ((S.state store.old).held name.now) text.old.items) }
    ensures none_waits { OnOk result (text.new.items ≡ []) }
    ensures written { OnlyWritten name.now (S.state store.old) (S.state store.new) }
    ensures cause { IfFailed result (Rose ((S.state store.old).writes name.now) ((S.state store.new).writes name.now)) (IsQuiet (S.state store.old) (S.state store.new)) }
{
    store.append(name, text)?;
    text.clear();
    Ok(())
}

// Prints a line behind the text that waits, and appends this where it is long.
fn gather_line<S: Store>(
    store: &mut S,
    name: &str,
    text: &mut Vec<u8>,
    line: &CertLine,
) -> Result<(), StoreFault>
    requires { IdsFromOne line.now }
    ensures told { OnOk result (IsToldWith (lines_held false (added ((S.state store.old).held name.now) text.old.items)) line.now (lines_held false (added ((S.state store.new).held name.now) text.new.items))) }
    ensures written { OnlyWritten name.now (S.state store.old) (S.state store.new) }
    ensures cause { IfFailed result (Rose ((S.state store.old).writes name.now) ((S.state store.new).writes name.now)) (IsQuiet (S.state store.old) (S.state store.new)) }
{
    put_whole(text, line)?;
    if text.len() >= BLOCK {
        append_waiting(store, name, text)?;
    }
    Ok(())
}

impl<'a, S: Store> TreeLog for StoreLog<'a, S> {
    ghost use Rattle.std.specs.Prelude.{refl};
    ghost use Rattle.cert_text.specs.StoreLogs.{log_steady-stays, log_steady-joins, log_quiet-joins};

    ghost drops = { λ _. false };

    ghost lines = { λ l. log_lines S.state l };

    ghost faults = { λ l. log_faults S.state l };

    ghost steady = { λ a b. log_steady S.state a b };

    ghost quiet = { λ a b. log_quiet S.state a b };

    fn put_line(&mut self, line: &CertLine) -> Result<(), StoreFault> {
        let put = gather_line(self.store, self.name, self.text, line);
        if put.is_err() {
            self.refused = true;
        }
        put
    }

    fn is_dropping(&self) -> bool {
        false
    }

    ghost tells_none = { λ log e. absurd (cc) };

    ghost steady_stays = { λ a. log_steady-stays S.state a };

    ghost steady_joins = { λ a b c first second. log_steady-joins S.state a b c first second };

    ghost quiet_stays = { λ _. (refl, refl) };

    ghost quiet_joins = { λ a b c first second. log_quiet-joins S.state a b c first second };
}
