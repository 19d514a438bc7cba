//! Whole runs as transcripts: files, words, what is put, and how each run ends. A transcript is played again, and must come out as it is.

use super::feeding::fed_lines;
use super::last_watcher::LastWatcher;
use super::own_watcher::OwnWatcher;
use align_top::run;
use desk_run::serve;
use outer_store::{MemorySink, MemoryStore};
use std::alloc::{AllocError, Global};
use std::cell::Cell;
use std::rc::Rc;
use world_watch::{
    CountWatcher, JsonWatcher, MergeWatcher, SeenWatcher, TallyWatcher, WorldWatcher,
};

// The words of a line.
fn words_of(alloc: Global, text: &str) -> Result<Vec<String>, AllocError> {
    let mut words = Vec::new(alloc);
    for word in text.split_whitespace() {
        words.push(String::from_str(alloc, word)?)?;
    }
    Ok(words)
}

// The store's call with this number fails, and no call where it is 0. A read copies one byte where the step is 1, and as many as are
// asked for where it is 0.
fn new_store(alloc: Global, failing: u64, step: u64) -> Result<MemoryStore, AllocError> {
    let failing = vec![in alloc; failing]?;
    Ok(if step == 1 {
        MemoryStore::in_steps(alloc, failing, 1)
    } else {
        MemoryStore::new(alloc, failing)
    })
}

/// The watchers that a run is given.
#[derive(Clone, Copy)]
enum Watching {
    /// One of each kind, as the program has them.
    Program,
    /// `one`, `stop`, which finds no memory at the third world, and `one` once more.
    Own,
    /// `last`, which keeps the last table, and `count`.
    Last,
}

/// What has been played of a transcript, and the store over which it runs.
///
/// A line `@ NAME` begins a file, whose lines follow. `$ WORDS` is a run, `? CODE` its exit code, and what it puts stands between.
/// `& WORDS` is a run with watchers of its own: `one`, `stop`, which finds no memory at the third world, and `one` once more; `~ N` tells
/// how many of these, and the scene, were there when one of them was first shown a world. `^ WORDS` is a run with a watcher of its own,
/// `last`, which keeps the last table, and with `count`. `: WORDS` is a run of the desk.
///
/// `+ TABLES` feeds tables of the problem in the file `p`, each by its letters, to `count` and to a `stop` that counts too, with no run
/// around them; `fed N` tells how many both took, and what each of the two then reports stands behind its name.
///
/// `= NAME` shows what a name holds then. `% N M S` takes a new store, in which the file `p` alone is held again; its call N fails, and in
/// the next run the sink's call M. No call fails where the number is 0. Where S is 1, a read copies one byte.
#[derive(Drop)]
struct Scene {
    alloc: Global,
    store: MemoryStore,
    failing_put: u64,
    /// The name of the file whose lines follow, and these lines.
    name: Option<String>,
    body: String,
    out: String,
}

impl Scene {
    fn new(alloc: Global) -> Scene {
        Scene {
            alloc,
            store: MemoryStore::new(alloc, Vec::new(alloc)),
            failing_put: 0,
            name: None,
            body: String::new(alloc),
            out: String::new(alloc),
        }
    }

    fn put_line(&mut self, line: &str) -> Result<(), AllocError> {
        self.out.push_str(line)?;
        self.out.push_str("\n")
    }

    fn put_bytes(&mut self, bytes: &[u8]) -> Result<(), AllocError> {
        match std::str::from_utf8(bytes) {
            Ok(text) => self.out.push_str(text),
            Err(_) => self.put_line("not UTF-8"),
        }
    }

    fn put_code(&mut self, code: u8) -> Result<(), AllocError> {
        let end = format!(in self.alloc; "? {code}")?;
        self.put_line(end.as_str())
    }

    /// A sink of which the call fails that is to.
    fn new_sink(&self) -> Result<MemorySink, AllocError> {
        let failing = vec![in self.alloc; self.failing_put]?;
        Ok(MemorySink::new(self.alloc, failing))
    }

    /// Holds the file whose lines have been played.
    fn end_file(&mut self) -> Result<(), AllocError> {
        if let Some(name) = &self.name {
            self.store.hold(name.as_str(), self.body.as_bytes())?;
            self.name = None;
            self.body.clear();
        }
        Ok(())
    }

    fn run(&mut self, text: &str, watching: Watching) -> Result<(), AllocError> {
        let words = words_of(self.alloc, text)?;
        let mut sink = self.new_sink()?;
        let held = Rc::new(self.alloc, Cell::new(0))?;
        let code = match watching {
            Watching::Program => self.run_words(&words, &mut sink)?,
            Watching::Own => self.run_with_own(&words, &mut sink, &held)?,
            Watching::Last => self.run_with_last(&words, &mut sink)?,
        };
        self.put_bytes(sink.bytes())?;
        if matches!(watching, Watching::Own) {
            let count = held.get();
            let shown = format!(in self.alloc; "~ {count}")?;
            self.put_line(shown.as_str())?;
        }
        self.put_code(code)
    }

    /// Serves a script at the desk.
    fn serve(&mut self, text: &str) -> Result<(), AllocError> {
        let words = words_of(self.alloc, text)?;
        let mut sink = self.new_sink()?;
        let code = serve(self.alloc, &words, &mut self.store, &mut sink).code();
        self.put_bytes(sink.bytes())?;
        self.put_code(code)
    }

    /// Runs with a watcher of each kind, as the program does, and answers the exit code.
    fn run_words(&mut self, words: &[String], sink: &mut MemorySink) -> Result<u8, AllocError> {
        let mut watchers: Vec<Box<dyn WorldWatcher>> = Vec::new(self.alloc);
        watchers.push(Box::new(self.alloc, CountWatcher::new(self.alloc))?)?;
        watchers.push(Box::new(self.alloc, TallyWatcher::new(self.alloc))?)?;
        watchers.push(Box::new(self.alloc, SeenWatcher::new(self.alloc))?)?;
        watchers.push(Box::new(self.alloc, MergeWatcher::new(self.alloc))?)?;
        watchers.push(Box::new(self.alloc, JsonWatcher::new(self.alloc))?)?;
        Ok(run(self.alloc, words, &mut self.store, sink, watchers).code())
    }

    /// Runs with watchers of its own, which hold this.
    fn run_with_own(
        &mut self,
        words: &[String],
        sink: &mut MemorySink,
        held: &Rc<Cell<usize>>,
    ) -> Result<u8, AllocError> {
        let mut watchers: Vec<Box<dyn WorldWatcher>> = Vec::new(self.alloc);
        watchers.push(Box::new(
            self.alloc,
            OwnWatcher::new(self.alloc, "one", "1", 5, held)?,
        )?)?;
        watchers.push(Box::new(
            self.alloc,
            OwnWatcher::new(self.alloc, "stop", "2", 2, held)?,
        )?)?;
        watchers.push(Box::new(
            self.alloc,
            OwnWatcher::new(self.alloc, "one", "3", 5, held)?,
        )?)?;
        Ok(run(self.alloc, words, &mut self.store, sink, watchers).code())
    }

    /// Runs with a watcher that keeps the last table and one that counts.
    fn run_with_last(&mut self, words: &[String], sink: &mut MemorySink) -> Result<u8, AllocError> {
        let mut watchers: Vec<Box<dyn WorldWatcher>> = Vec::new(self.alloc);
        watchers.push(Box::new(self.alloc, LastWatcher::new(self.alloc))?)?;
        watchers.push(Box::new(self.alloc, CountWatcher::new(self.alloc))?)?;
        Ok(run(self.alloc, words, &mut self.store, sink, watchers).code())
    }

    /// Feeds tables of the problem to watchers.
    fn feed(&mut self, tables: &str) -> Result<(), AllocError> {
        let text = self.store.bytes("p").unwrap_or(&[]);
        let lines = fed_lines(self.alloc, text, tables)?;
        self.put_bytes(&lines)
    }

    /// Shows what a name holds.
    fn show(&mut self, name: &str) -> Result<(), AllocError> {
        let held = Vec::from_slice(self.alloc, self.store.bytes(name).unwrap_or(&[]))?;
        self.put_bytes(&held)
    }

    /// Takes a new store, in which the problem is held again.
    fn renew(&mut self, numbers: &str) -> Result<(), AllocError> {
        let mut found = [0; 3];
        for (place, word) in found.iter_mut().zip(numbers.split_whitespace()) {
            *place = word.parse::<u64>().unwrap_or(0);
        }
        let problem = Vec::from_slice(self.alloc, self.store.bytes("p").unwrap_or(&[]))?;
        self.store = new_store(self.alloc, found[0], found[2])?;
        self.failing_put = found[1];
        self.store.hold("p", &problem)
    }

    /// A line that begins with a sign.
    fn play_sign(&mut self, line: &str, sign: &str, rest: &str) -> Result<(), AllocError> {
        self.end_file()?;
        self.put_line(line)?;
        match sign {
            "@" => {
                self.name = Some(String::from_str(self.alloc, rest)?);
                Ok(())
            }
            "$" => self.run(rest, Watching::Program),
            "&" => self.run(rest, Watching::Own),
            "^" => self.run(rest, Watching::Last),
            ":" => self.serve(rest),
            "+" => self.feed(rest),
            "=" => self.show(rest),
            _ => self.renew(rest),
        }
    }

    /// A line of a file; what a run should put is left out, since the run puts it.
    fn play_other(&mut self, line: &str) -> Result<(), AllocError> {
        if self.name.is_none() {
            return Ok(());
        }
        self.body.push_str(line)?;
        self.body.push_str("\n")?;
        self.put_line(line)
    }
}

/// A transcript played again. It comes out as it went in where the program does what it says.
pub fn played(alloc: Global, text: &str) -> Result<String, AllocError> {
    let mut scene = Scene::new(alloc);
    for line in text.lines() {
        match line.split_once(' ') {
            Some((sign, rest)) if matches!(sign, "@" | "$" | "&" | "^" | ":" | "+" | "=" | "%") => {
                scene.play_sign(line, sign, rest)?;
            }
            _ => scene.play_other(line)?,
        }
    }
    Ok(scene.out)
}
