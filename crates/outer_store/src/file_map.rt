//! Files in memory, by their names.
ghost use Rattle.std.specs.Prelude.{◌≡◌, ◌++◌, [], OnOk, OnErr};
ghost use Rattle.std.specs.Option.{option_copied};
ghost use Rattle.std.specs.FinMap as map;
ghost use Rattle.outer_store.specs.Contents.{OthersKept};
ghost use Rattle.outer_store.specs.Memory.{bytes_of, told};

use std::alloc::{AllocError, Global};
use std::collections::BTreeMap;
use std::marker::Model;

/// Files in memory, by their names.
#[derive(Drop)]
pub(crate) struct FileMap {
    alloc: Global,
    files: BTreeMap<String, Vec<u8>>,
}

impl Model for FileMap {
    ghost use Rattle.outer_store.specs.Memory.{Files, files_code};

    ghost Value = { Files };

    ghost coded = { files_code };

    ghost use Rattle.outer_store.specs.Entries.{files_of};

    ghost view = { λ m. files_of m.files };
}

impl FileMap {
    pub(crate) fn new(alloc: Global) -> Self
        ensures { result ≡ map.empty }
    {
        FileMap {
            alloc,
            files: BTreeMap::new(alloc),
        }
    }

    pub(crate) fn get(&self, name: &str) -> Option<&[u8]>
        ensures { option_copied result ≡ map.get self.now name.now }
    {
        match self.files.get(name) {
            Some(bytes) => Some(bytes.as_slice()),
            None => None,
        }
    }

    /// Makes the name hold these bytes.
    pub(crate) fn put(&mut self, name: &str, bytes: Vec<u8>) -> Result<(), AllocError>
        ensures ok { OnOk result (self.new ≡ map.insert self.old name.now bytes.items) }
        ensures err { OnErr result (self.new ≡ self.old) }
        ensures holds { OnOk result (bytes_of self.new name.now ≡ bytes.items) }
        ensures others { OthersKept name.now (told self.old) (told self.new) }
    {
        let name = String::from_str(self.alloc, name)?;
        self.files.insert(name, bytes)?;
        Ok(())
    }

    /// Makes the name hold no bytes.
    pub(crate) fn clear(&mut self, name: &str) -> Result<(), AllocError>
        ensures ok { OnOk result (self.new ≡ map.insert self.old name.now []) }
        ensures err { OnErr result (self.new ≡ self.old) }
        ensures holds { OnOk result (bytes_of self.new name.now ≡ []) }
        ensures others { OthersKept name.now (told self.old) (told self.new) }
    {
        self.put(name, Vec::new(self.alloc))
    }

    /// Adds the bytes to what the name holds.
    pub(crate) fn extend(&mut self, name: &str, piece: &[u8]) -> Result<(), AllocError>
        ensures ok { OnOk result (self.new ≡ map.insert self.old name.now (bytes_of self.old name.now ++ piece.now)) }
        ensures err { OnErr result (self.new ≡ self.old) }
        ensures holds { OnOk result (bytes_of self.new name.now ≡ bytes_of self.old name.now ++ piece.now) }
        ensures others { OthersKept name.now (told self.old) (told self.new) }
    {
        if let Some(bytes) = self.files.get_mut(name) {
            bytes.extend_from_slice(piece)?;
            return Ok(());
        }
        self.put(name, Vec::from_slice(self.alloc, piece)?)
    }
}
