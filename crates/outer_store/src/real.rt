//! The files and the standard output of the system. No content is told: what the system keeps is not proved.
ghost use Rattle.std.specs.Prelude.{◌≡◌, ◌≤◌, ℕ, List, [], OnOk, OnErr, IsOkUnless};
ghost use Rattle.std.specs.Io.{ReadsAtMost};
ghost use Rattle.std.specs.Io.KnownBytes.{Appends};
ghost use Rattle.outer_store.specs.Faults.{Rose, IfFailed, next};
ghost use Rattle.outer_store.specs.Sent.{SentInPart};

use crate::used::{Use, UsedFiles, is_same};
use crate::{Sink, Store, StoreFault};
use std::alloc::Global;
use std::fs::{self, OpenFile, OpenOptions};
use std::io::{self, Read, Seek, SeekFrom, Write};
use std::marker::Model;
use std::rt::Files;

/// Raises the count where the answer is a failure.
fn counted<T>(faults: &mut u64, answer: Result<T, StoreFault>) -> Result<T, StoreFault>
    ensures answer { result ≡ answer }
    ensures counted { IfFailed result (faults.new ≡ next faults.old) (faults.new ≡ faults.old) }
    ensures later { faults.old ≤ faults.new }
{
    if let Err(StoreFault::Failed) = &answer {
        *faults = faults.saturating_add(1);
    }
    answer
}

/// Writes all the bytes. A write that takes nothing is a failure.
fn write_whole<W: Write>(writer: &mut W, bytes: &[u8]) -> Result<(), StoreFault>
    ensures answer { IsOkUnless result StoreFault.Failed }
    ensures ok { OnOk result (Appends (W.contents writer.old) (W.contents writer.new) bytes.now) }
    ensures err { OnErr result ((rest : List ℕ) × SentInPart (W.contents writer.old) (W.contents writer.new) bytes.now rest) }
{
    let mut rest = bytes;
    'pieces: while !rest.is_empty() {
        match writer.write(rest) {
            Ok(0) | Err(_) => return Err(StoreFault::Failed),
            Ok(count) => rest = &rest[count..],
        }
    }
    Ok(())
}

/// A file that stays open between reads of one name.
#[derive(Drop)]
struct Reading<F> {
    name: String,
    file: F,
    place: u64,
}

impl<F: Read + Seek> Reading<F> {
    fn read_at(&mut self, at: u64, into: &mut [u8]) -> Result<usize, StoreFault>
        ensures { ReadsAtMost result into.new }
    {
        if at != self.place {
            self.file
                .seek(SeekFrom::Start(at))
                .map_err(|_| StoreFault::Failed)?;
        }
        let count = self.file.read(into).map_err(|_| StoreFault::Failed)?;
        self.place = at.saturating_add(count as u64);
        Ok(count)
    }
}

/// A file that stays open between pieces that are added to one name.
#[derive(Drop)]
struct Appending<F> {
    name: String,
    file: F,
}

/// Files of the system by their paths. An absent file is an error of the system.
#[derive(Drop)]
pub struct FileStore<'r, R: Files> {
    files: &'r R,
    alloc: Global,
    reading: Option<Reading<R::File>>,
    appending: Option<Appending<R::File>>,
    used: UsedFiles,
    faults: u64,
}

impl<'r, R: Files> Model for FileStore<'r, R> {
    ghost use Rattle.std.specs.Prelude.{ℕ};

    ghost Value = { ℕ };

    ghost view = { λ s. s.faults };
}

impl<'r, R: Files> FileStore<'r, R> {
    /// The files that the runtime reaches. No call has failed yet.
    pub fn new(alloc: Global, files: &'r R) -> Self
        ensures { result ≡ 0 }
    {
        FileStore {
            files,
            alloc,
            reading: None,
            appending: None,
            used: UsedFiles::new(alloc),
            faults: 0,
        }
    }

    /// The name by which this store has read or made a file, where `name` leads to that file too and `create` of it is refused
    /// for that.
    pub fn kept_as(&self, name: &str) -> Option<&str> {
        match fs::metadata(self.files, name) {
            Ok(found) => self.used.kept_as(name, &found),
            Err(_) => None,
        }
    }
}

fn open_to_read<R: Files>(
    files: &R,
    alloc: Global,
    used: &mut UsedFiles,
    kept: Option<Reading<R::File>>,
    name: &str,
) -> Result<Reading<R::File>, StoreFault> {
    if let Some(open) = kept {
        if is_same(open.name.as_str(), name) {
            return Ok(open);
        }
    }
    let name = String::from_str(alloc, name)?;
    let file = fs::open(files, name.as_str()).map_err(|_| StoreFault::Failed)?;
    let found = file.metadata().map_err(|_| StoreFault::Failed)?;
    used.note(alloc, name.as_str(), &found, Use::Read)?;
    Ok(Reading {
        name,
        file,
        place: 0,
    })
}

fn open_to_append<R: Files>(
    files: &R,
    alloc: Global,
    kept: Option<Appending<R::File>>,
    name: &str,
) -> Result<Appending<R::File>, StoreFault> {
    if let Some(open) = kept {
        if is_same(open.name.as_str(), name) {
            return Ok(open);
        }
    }
    let name = String::from_str(alloc, name)?;
    let file = OpenOptions::new()
        .append(true)
        .create(true)
        .open(files, name.as_str())
        .map_err(|_| StoreFault::Failed)?;
    Ok(Appending { name, file })
}

fn read_kept<R: Files>(
    files: &R,
    alloc: Global,
    used: &mut UsedFiles,
    kept: &mut Option<Reading<R::File>>,
    name: &str,
    at: u64,
    into: &mut [u8],
) -> Result<usize, StoreFault>
    ensures { ReadsAtMost result into.new }
{
    let mut open = open_to_read(files, alloc, used, kept.take(), name)?;
    let count = open.read_at(at, into)?;
    *kept = Some(open);
    Ok(count)
}

fn append_kept<R: Files>(
    files: &R,
    alloc: Global,
    kept: &mut Option<Appending<R::File>>,
    name: &str,
    bytes: &[u8],
) -> Result<(), StoreFault> {
    let mut open = open_to_append(files, alloc, kept.take(), name)?;
    write_whole(&mut open.file, bytes)?;
    *kept = Some(open);
    Ok(())
}

// Makes a file empty. It is opened with what it holds, and looked at first: one that this run has used by another name is refused,
// and keeps what it holds.
fn create_file<R: Files>(
    files: &R,
    alloc: Global,
    used: &mut UsedFiles,
    name: &str,
) -> Result<(), StoreFault> {
    let file = OpenOptions::new()
        .write(true)
        .create(true)
        .open(files, name)
        .map_err(|_| StoreFault::Failed)?;
    let found = file.metadata().map_err(|_| StoreFault::Failed)?;
    if !found.is_file() {
        return Ok(());
    }
    if used.kept_as(name, &found).is_some() {
        return Err(StoreFault::Failed);
    }
    used.note(alloc, name, &found, Use::Made)?;
    file.set_len(0).map_err(|_| StoreFault::Failed)
}

impl<'r, R: Files> Store for FileStore<'r, R> {
    ghost use Rattle.std.specs.Prelude.{None};

    ghost state = { λ count. record { held = λ _. None; reads = λ _. count; writes = λ _. count } };

    fn read(&mut self, name: &str, at: u64, into: &mut [u8]) -> Result<usize, StoreFault> {
        let (used, reading) = (&mut self.used, &mut self.reading);
        let answer = read_kept(self.files, self.alloc, used, reading, name, at, into);
        counted(&mut self.faults, answer)
    }

    fn create(&mut self, name: &str) -> Result<(), StoreFault> {
        self.reading = None;
        self.appending = None;
        let answer = create_file(self.files, self.alloc, &mut self.used, name);
        counted(&mut self.faults, answer)
    }

    fn append(&mut self, name: &str, bytes: &[u8]) -> Result<(), StoreFault> {
        let answer = append_kept(self.files, self.alloc, &mut self.appending, name, bytes);
        counted(&mut self.faults, answer)
    }
}

/// The standard output.
#[derive(Drop)]
pub struct StdoutSink<'r, P: Print> {
    to: &'r P,
    faults: u64,
}

impl<'r, P: Print> Model for StdoutSink<'r, P> {
    ghost use Rattle.std.specs.Prelude.{ℕ};

    ghost Value = { ℕ };

    ghost view = { λ s. s.faults };
}

impl<'r, P: Print> StdoutSink<'r, P> {
    /// The standard output that the runtime reaches. No call has failed yet.
    pub fn new(to: &'r P) -> Self
        ensures { result ≡ 0 }
    {
        StdoutSink { to, faults: 0 }
    }
}

impl<'r, P: Print> Sink for StdoutSink<'r, P> {
    ghost use Rattle.std.specs.Prelude.{None};

    ghost state = { λ count. record { bytes = None; faults = count } };

    fn put(&mut self, bytes: &[u8]) -> Result<(), StoreFault> {
        let answer = write_whole(&mut io::writer(self.to), bytes);
        counted(&mut self.faults, answer)
    }
}
