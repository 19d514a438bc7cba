//! The files of the system that a store has used, known by their numbers whatever name leads to them.

use std::alloc::{AllocError, Global};
use std::fs::Metadata;
use std::os::unix::fs::MetadataExt;

/// Whether two names are the same. One is compared for each piece that is added, and names are short: a plain loop is quicker there
/// than a comparison by words.
pub(crate) fn is_same(one: &str, other: &str) -> bool {
    let (one, other) = (one.as_bytes(), other.as_bytes());
    if one.len() != other.len() {
        return false;
    }
    for place in 0..one.len() {
        if one[place] != other[place] {
            return false;
        }
    }
    true
}

/// What was done with a file.
#[derive(Clone, Copy, PartialEq, Eq)]
pub(crate) enum Use {
    Read,
    Made,
}

/// A file, the name that it was used by, and what for.
#[derive(Drop)]
struct UsedFile {
    device: u64,
    node: u64,
    name: String,
    how: Use,
}

impl UsedFile {
    fn is(&self, found: &Metadata) -> bool {
        self.device == found.dev() && self.node == found.ino()
    }
}

/// The files that were read or made. Devices and pipes aren't kept: nothing is lost in them.
#[derive(Drop)]
pub(crate) struct UsedFiles {
    files: Vec<UsedFile>,
}

impl UsedFiles {
    pub(crate) fn new(alloc: Global) -> Self {
        UsedFiles {
            files: Vec::new(alloc),
        }
    }

    /// Keeps a file that was found by this name.
    pub(crate) fn note(
        &mut self,
        alloc: Global,
        name: &str,
        found: &Metadata,
        how: Use,
    ) -> Result<(), AllocError> {
        // A file system that gives no numbers can't tell its files apart.
        if !found.is_file() || found.ino() == 0 {
            return Ok(());
        }
        for file in &self.files {
            if file.is(found) && file.how == how {
                return Ok(());
            }
        }
        self.files.push(UsedFile {
            device: found.dev(),
            node: found.ino(),
            name: String::from_str(alloc, name)?,
            how,
        })?;
        Ok(())
    }

    /// The name by which a file was used, where what it holds would be lost if it was made by this name: it was read, or was made
    /// by another name.
    pub(crate) fn kept_as(&self, name: &str, found: &Metadata) -> Option<&str> {
        for file in &self.files {
            if file.is(found) && (file.how == Use::Read || !is_same(file.name.as_str(), name)) {
                return Some(file.name.as_str());
            }
        }
        None
    }
}
