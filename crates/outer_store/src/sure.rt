//! A store and a sink in memory that never fail.
ghost use Rattle.std.specs.Prelude.{◌≡◌, ◌<◌, ◌^◌, ◌++◌, [], IfOk, IsOk, OnOk, OnErr, IsOkUnless, length, drop, Result, Ok};
ghost use Rattle.std.specs.Option.{option_copied};
ghost use Rattle.std.specs.FinMap as map;
ghost use Rattle.outer_store.specs.Bytes.{Copies};
ghost use Rattle.outer_store.specs.Contents.{OthersKept};
ghost use Rattle.outer_store.specs.Memory.{bytes_of, told, copied_over, copy_count};

use crate::copy::copy_part;
use crate::file_map::FileMap;
use crate::{Sink, Store, StoreFault};
use std::alloc::Global;
use std::marker::Model;

/// A store in memory that never fails. It may want memory.
#[derive(Drop)]
pub struct SureStore {
    files: FileMap,
}

impl Model for SureStore {
    ghost use Rattle.outer_store.specs.Memory.{Files, files_code};

    ghost Value = { Files };

    ghost coded = { files_code };

    ghost view = { λ s. s.files };
}

impl SureStore {
    /// A store with no names.
    pub fn new(alloc: Global) -> Self
        ensures { result ≡ map.empty }
    {
        SureStore {
            files: FileMap::new(alloc),
        }
    }

    /// What the name holds; `None` where the store has no such name.
    pub fn bytes(&self, name: &str) -> Option<&[u8]>
        ensures { option_copied result ≡ map.get self.now name.now }
    {
        self.files.get(name)
    }
}

impl Store for SureStore {
    ghost state = { λ s. record { held = told s; reads = λ _. 0; writes = λ _. 0 } };

    fn read(&mut self, name: &str, at: u64, into: &mut [u8]) -> Result<usize, StoreFault>
        ensures value { result ≡ Ok (copy_count (bytes_of self.old name.now) at (length into.old) usize.MAX) }
        ensures copied { IfOk result (λ n. into.new ≡ copied_over (bytes_of self.old name.now) at n into.old) }
        ensures after { self.new ≡ self.old }
        ensures bytes { IfOk result (λ n. Copies (drop at (bytes_of self.old name.now)) n into.new) }
        ensures small { OnOk result (length (bytes_of self.old name.now) < 2 ^ 64) }
    {
        let bytes = self.files.get(name).unwrap_or(&[]);
        Ok(copy_part(bytes, at, usize::MAX, into))
    }

    fn create(&mut self, name: &str) -> Result<(), StoreFault>
        ensures answer { IsOkUnless result StoreFault.NoMemory }
        ensures created { OnOk result (self.new ≡ map.insert self.old name.now []) }
        ensures refused { OnErr result (self.new ≡ self.old) }
        ensures ok { OnOk result (bytes_of self.new name.now ≡ []) }
        ensures others { OthersKept name.now (told self.old) (told self.new) }
    {
        self.files.clear(name)?;
        Ok(())
    }

    fn append(&mut self, name: &str, bytes: &[u8]) -> Result<(), StoreFault>
        ensures answer { IsOkUnless result StoreFault.NoMemory }
        ensures appended { OnOk result (self.new ≡ map.insert self.old name.now (bytes_of self.old name.now ++ bytes.now)) }
        ensures refused { OnErr result (self.new ≡ self.old) }
        ensures ok { OnOk result (bytes_of self.new name.now ≡ bytes_of self.old name.now ++ bytes.now) }
        ensures others { OthersKept name.now (told self.old) (told self.new) }
    {
        self.files.extend(name, bytes)?;
        Ok(())
    }
}

/// A sink in memory that never fails. It may want memory.
#[derive(Drop)]
pub struct SureSink {
    bytes: Vec<u8>,
}

impl Model for SureSink {
    ghost use Rattle.std.specs.Prelude.{List, ℕ};

    ghost Value = { List ℕ };

    ghost view = { λ s. s.bytes.items };
}

impl SureSink {
    /// A sink that has received nothing.
    pub fn new(alloc: Global) -> Self
        ensures { result ≡ [] }
    {
        SureSink {
            bytes: Vec::new(alloc),
        }
    }

    /// All the bytes received so far.
    pub fn bytes(&self) -> &[u8]
        ensures { result.now ≡ self.now }
    {
        &self.bytes
    }
}

impl Sink for SureSink {
    ghost use Rattle.std.specs.Prelude.{Some};

    ghost state = { λ bytes. record { bytes = Some bytes; faults = 0 } };

    fn put(&mut self, bytes: &[u8]) -> Result<(), StoreFault>
        ensures answer { IsOkUnless result StoreFault.NoMemory }
        ensures received { OnOk result (self.new ≡ self.old ++ bytes.now) }
        ensures refused { OnErr result (self.new ≡ self.old) }
    {
        self.bytes.extend_from_slice(bytes)?;
        Ok(())
    }
}
