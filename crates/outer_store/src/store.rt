//! What a program reads and writes, by what it holds and by counts of its faults.
ghost use Rattle.std.specs.Prelude.{◌≡◌, ◌≤◌, ◌<◌, ◌^◌, Result, length, drop, IfOk, OnOk, OnErr, IfSome};
ghost use Rattle.std.specs.Io.{ReadsAtMost};
ghost use Rattle.outer_store.specs.Bytes.{Copies, GrownInPart, added};
ghost use Rattle.outer_store.specs.Contents.{emptied, EmptiedOrKept};
ghost use Rattle.outer_store.specs.Faults.{Rose, IfFailed};
ghost use Rattle.outer_store.specs.States.{StoreState, IsQuiet, OnlyRead, OnlyWritten};

use crate::StoreFault;

/// Files by their names. A name is text. In memory a name that was never written holds no bytes; a file that isn't there fails.
pub trait Store {
    /// What each name holds, where the store tells it, and how often a read and a write of each name failed.
    ghost state: { Self → StoreState };

    /// Copies bytes of the name, from place `at` on, to the front of `into`, and answers how many.
    /// It may copy fewer than there is room for. Bytes of `into` past them may be anything.
    fn read(&mut self, name: &str, at: u64, into: &mut [u8]) -> Result<usize, StoreFault>
        ensures room { ReadsAtMost result into.new }
        ensures bytes { IfSome ((state self.old).held name.now) (λ bytes. IfOk result (λ n. Copies (drop at bytes) n into.new)) }
        ensures small { IfSome ((state self.old).held name.now) (λ bytes. OnOk result (length bytes < 2 ^ 64)) }
        ensures only_read { OnlyRead (state self.old) (state self.new) }
        ensures cause { IfFailed result (Rose ((state self.old).reads name.now) ((state self.new).reads name.now)) (IsQuiet (state self.old) (state self.new)) };

    /// Makes the name hold no bytes. After a refusal it holds what it held, or nothing.
    fn create(&mut self, name: &str) -> Result<(), StoreFault>
        ensures ok { OnOk result ((state self.new).held name.now ≡ emptied ((state self.old).held name.now)) }
        ensures err { OnErr result (EmptiedOrKept ((state self.old).held name.now) ((state self.new).held name.now)) }
        ensures only_written { OnlyWritten name.now (state self.old) (state self.new) }
        ensures cause { IfFailed result (Rose ((state self.old).writes name.now) ((state self.new).writes name.now)) (IsQuiet (state self.old) (state self.new)) };

    /// Adds the bytes to the end of what the name holds. After a refusal a first part of them may have been added.
    fn append(&mut self, name: &str, bytes: &[u8]) -> Result<(), StoreFault>
        ensures ok { OnOk result ((state self.new).held name.now ≡ added ((state self.old).held name.now) bytes.now) }
        ensures err { OnErr result (GrownInPart ((state self.old).held name.now) ((state self.new).held name.now) bytes.now) }
        ensures only_written { OnlyWritten name.now (state self.old) (state self.new) }
        ensures cause { IfFailed result (Rose ((state self.old).writes name.now) ((state self.new).writes name.now)) (IsQuiet (state self.old) (state self.new)) };
}
