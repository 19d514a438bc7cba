//! A store and a sink in memory, which fail at the calls that they were told.
ghost use Rattle.std.specs.Prelude.{◌≡◌, ◌≤◌, ◌<◌, ◌^◌, ◌++◌, ◌↔◌, [], IfOk, OnOk, OnErr, IsErrOf, IsTrue, min, length, drop};
ghost use Rattle.std.specs.Option.{option_copied};
ghost use Rattle.std.specs.FinMap as map;
ghost use Rattle.outer_store.specs.Bytes.{Copies};
ghost use Rattle.outer_store.specs.Contents.{OthersKept};
ghost use Rattle.outer_store.specs.Plan.{called, fails_next};
ghost use Rattle.outer_store.specs.Memory.{bytes_of, told, fresh_memory, fresh_received, read_answer, copied_over, copy_count};

use crate::copy::copy_part;
use crate::file_map::FileMap;
use crate::plan::FaultPlan;
use crate::{Sink, Store, StoreFault};
use std::alloc::{AllocError, Global};
use std::marker::Model;

/// A store in memory. Its calls are numbered from 1, over all calls of the trait, and those whose
/// numbers are listed fail.
#[derive(Drop)]
pub struct MemoryStore {
    files: FileMap,
    plan: FaultPlan,
    step: usize,
    alloc: Global,
}

impl Model for MemoryStore {
    ghost use Rattle.std.specs.Prelude.{◌≤◌};
    ghost use Rattle.outer_store.specs.Memory.{Memory, memory_code};

    ghost Value = { Memory };

    ghost coded = { memory_code };

    ghost view = { λ s. record { files = s.files; plan = s.plan; step = s.step } };

    ghost invariant = { λ s. 1 ≤ s.step };
}

impl MemoryStore {
    /// A store with no names. The calls whose numbers are listed fail.
    pub fn new(alloc: Global, failing: Vec<u64>) -> Self
        ensures { result ≡ fresh_memory failing.items usize.MAX }
    {
        MemoryStore::in_steps(alloc, failing, usize::MAX)
    }

    /// A store with no names, of which a read copies at most `step` bytes. The calls whose numbers are listed fail.
    pub fn in_steps(alloc: Global, failing: Vec<u64>, step: usize) -> Self
        requires { 1 ≤ step }
        ensures { result ≡ fresh_memory failing.items step }
    {
        MemoryStore {
            files: FileMap::new(alloc),
            plan: FaultPlan::new(failing),
            step,
            alloc,
        }
    }

    /// What the name holds; `None` where the store has no such name.
    pub fn bytes(&self, name: &str) -> Option<&[u8]>
        ensures { option_copied result ≡ map.get self.now.files name.now }
    {
        self.files.get(name)
    }

    /// Makes the name hold these bytes. This prepares a store: it is no call of the trait.
    pub fn hold(&mut self, name: &str, bytes: &[u8]) -> Result<(), AllocError>
        ensures ok { OnOk result (self.new ≡ record self.old { files = map.insert self.old.files name.now bytes.now }) }
        ensures err { OnErr result (self.new ≡ self.old) }
    {
        let bytes = Vec::from_slice(self.alloc, bytes)?;
        self.files.put(name, bytes)
    }
}

impl Store for MemoryStore {
    ghost state = { λ s. record { held = told s.files; reads = λ _. s.plan.faults; writes = λ _. s.plan.faults } };

    fn read(&mut self, name: &str, at: u64, into: &mut [u8]) -> Result<usize, StoreFault>
        ensures value { result ≡ read_answer self.old name.now at (length into.old) }
        ensures copied { IfOk result (λ n. into.new ≡ copied_over (bytes_of self.old.files name.now) at n into.old) }
        ensures untouched { OnErr result (into.new ≡ into.old) }
        ensures after { self.new ≡ record self.old { plan = called self.old.plan } }
        ensures bytes { IfOk result (λ n. Copies (drop at (bytes_of self.old.files name.now)) n into.new) }
        ensures small { OnOk result (length (bytes_of self.old.files name.now) < 2 ^ 64) }
        ensures later { self.old.plan.faults ≤ self.new.plan.faults }
    {
        if self.plan.call() {
            return Err(StoreFault::Failed);
        }
        let bytes = self.files.get(name).unwrap_or(&[]);
        Ok(copy_part(bytes, at, self.step, into))
    }

    fn create(&mut self, name: &str) -> Result<(), StoreFault>
        ensures failed { IsErrOf result StoreFault.Failed ↔ IsTrue (fails_next self.old.plan) }
        ensures created { OnOk result (self.new ≡ record self.old { files = map.insert self.old.files name.now []; plan = called self.old.plan }) }
        ensures refused { OnErr result (self.new ≡ record self.old { plan = called self.old.plan }) }
        ensures ok { OnOk result (bytes_of self.new.files name.now ≡ []) }
        ensures others { OthersKept name.now (told self.old.files) (told self.new.files) }
        ensures later { self.old.plan.faults ≤ self.new.plan.faults }
    {
        if self.plan.call() {
            return Err(StoreFault::Failed);
        }
        self.files.clear(name)?;
        Ok(())
    }

    fn append(&mut self, name: &str, bytes: &[u8]) -> Result<(), StoreFault>
        ensures failed { IsErrOf result StoreFault.Failed ↔ IsTrue (fails_next self.old.plan) }
        ensures appended { OnOk result (self.new ≡ record self.old {
          files = map.insert self.old.files name.now (bytes_of self.old.files name.now ++ bytes.now);
          plan = called self.old.plan;
        }) }
        ensures refused { OnErr result (self.new ≡ record self.old { plan = called self.old.plan }) }
        ensures ok { OnOk result (bytes_of self.new.files name.now ≡ bytes_of self.old.files name.now ++ bytes.now) }
        ensures others { OthersKept name.now (told self.old.files) (told self.new.files) }
        ensures later { self.old.plan.faults ≤ self.new.plan.faults }
    {
        if self.plan.call() {
            return Err(StoreFault::Failed);
        }
        self.files.extend(name, bytes)?;
        Ok(())
    }
}

/// A sink in memory. Its calls are numbered from 1, and those whose numbers are listed fail.
#[derive(Drop)]
pub struct MemorySink {
    bytes: Vec<u8>,
    plan: FaultPlan,
}

impl Model for MemorySink {
    ghost use Rattle.outer_store.specs.Memory.{Received};

    ghost Value = { Received };

    ghost view = { λ s. record { bytes = s.bytes.items; plan = s.plan } };
}

impl MemorySink {
    /// A sink that has received nothing. The calls whose numbers are listed fail.
    pub fn new(alloc: Global, failing: Vec<u64>) -> Self
        ensures { result ≡ fresh_received failing.items }
    {
        MemorySink {
            bytes: Vec::new(alloc),
            plan: FaultPlan::new(failing),
        }
    }

    /// All the bytes received so far.
    pub fn bytes(&self) -> &[u8]
        ensures { result.now ≡ self.now.bytes }
    {
        &self.bytes
    }
}

impl Sink for MemorySink {
    ghost use Rattle.std.specs.Prelude.{Some};

    ghost state = { λ s. record { bytes = Some s.bytes; faults = s.plan.faults } };

    fn put(&mut self, bytes: &[u8]) -> Result<(), StoreFault>
        ensures failed { IsErrOf result StoreFault.Failed ↔ IsTrue (fails_next self.old.plan) }
        ensures received { OnOk result (self.new ≡ record { bytes = self.old.bytes ++ bytes.now; plan = called self.old.plan }) }
        ensures refused { OnErr result (self.new ≡ record self.old { plan = called self.old.plan }) }
        ensures later { self.old.plan.faults ≤ self.new.plan.faults }
    {
        if self.plan.call() {
            return Err(StoreFault::Failed);
        }
        self.bytes.extend_from_slice(bytes)?;
        Ok(())
    }
}
