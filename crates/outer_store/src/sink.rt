//! What receives bytes.
ghost use Rattle.std.specs.Prelude.{◌≡◌, ◌≤◌, Result, OnOk, OnErr};
ghost use Rattle.outer_store.specs.Bytes.{GrownInPart, added};
ghost use Rattle.outer_store.specs.Faults.{Rose, IfFailed};
ghost use Rattle.outer_store.specs.States.{SinkState};

use crate::StoreFault;

/// A receiver of bytes, as standard output.
pub trait Sink {
    /// The bytes received so far, where the sink tells them, and how often a call failed.
    ghost state: { Self → SinkState };

    /// Sends the bytes. After a refusal a first part of them may have been sent.
    fn put(&mut self, bytes: &[u8]) -> Result<(), StoreFault>
        ensures ok { OnOk result ((state self.new).bytes ≡ added (state self.old).bytes bytes.now) }
        ensures err { OnErr result (GrownInPart (state self.old).bytes (state self.new).bytes bytes.now) }
        ensures cause { IfFailed result (Rose (state self.old).faults (state self.new).faults) ((state self.new).faults ≡ (state self.old).faults) }
        ensures later { (state self.old).faults ≤ (state self.new).faults };
}
