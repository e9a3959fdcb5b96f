//! Runs of rows.

use crate::devices::{Devices, NAME, devices_of, plain_sink};
use crate::row::{Row, bad_row, words_in};
use std::alloc::Global;
use std::io;
use std::sync::Wait;
use std::thread::Threads;
use xl_fakes::{MemoryShelf, MemorySink, MemorySource};
use xl_ports::{Sink, Source};
use xl_program::run;
use xl_real::{FileShelf, OpenGate, StdSink, StdSource};
use xl_serving::serve;

/// What a run came to.
#[derive(Drop)]
pub struct Outcome {
    pub status: u8,
    /// Whether some hold was given up.
    pub missed: bool,
    sink: MemorySink,
    shelf: Option<MemoryShelf>,
}

impl Outcome {
    /// What was written to a sink in memory.
    pub fn text(&self) -> &[u8] {
        self.sink.held()
    }

    /// What a crash may leave of a file in memory, and first what a read gives.
    pub fn leaves(&self) -> &[Option<Vec<u8>>] {
        match &self.shelf {
            Some(shelf) => shelf.leaves(NAME),
            None => &[],
        }
    }

    /// Whether a draft is open on a shelf in memory.
    pub fn has_draft(&self) -> bool {
        match &self.shelf {
            Some(shelf) => shelf.has_draft(),
            None => false,
        }
    }
}

/// What runs are played with.
#[derive(Drop)]
pub struct Player<'a, R: Threads + Wait + Sync> {
    pub rt: &'a HostRuntime,
    pub threads: &'a R,
}

impl<'a, R: Threads + Wait + Sync> Player<'a, R> {
    /// Does what a row asks for.
    pub fn play(&self, row: &Row<'_>) -> io::Result<Outcome> {
        let command = row.needed("run")?;
        let (devices, words) = command.split_once(' ').unwrap_or((command, ""));
        match devices {
            "in-memory" => self.play_row(row, words),
            "on-files" => self.play_on_files(words),
            "on-system" => self.play_on_system(words),
            _ => Err(bad_row()),
        }
    }

    /// Whether an audit accepts what was printed for the script of a row.
    pub fn accepts(&self, row: &Row<'_>, printed: &[u8]) -> io::Result<bool> {
        let source = printed_run(self.rt.alloc(), row, printed)?;
        let devices = devices_of(self.rt, row, source)?;
        let outcome = self.play_in_memory(&["audit", NAME], devices);
        Ok(outcome.status == 0 && outcome.text() == b"accepted\n".as_slice())
    }

    fn play_row(&self, row: &Row<'_>, words: &str) -> io::Result<Outcome> {
        let alloc = self.rt.alloc();
        let words = words_in(alloc, words)?;
        let devices = devices_of(self.rt, row, row.source(alloc)?)?;
        Ok(self.play_in_memory(&words, devices))
    }

    fn play_in_memory(&self, words: &[&str], devices: Devices) -> Outcome {
        let alloc = self.rt.alloc();
        let Devices {
            shelf,
            mut source,
            mut sink,
            gate,
        } = devices;
        let chest = Vec::new(alloc);
        let rt = self.threads;
        let ended = match words.first() {
            Some(verb) if *verb == "serve" => {
                serve(rt, alloc, words, &mut source, &mut sink, shelf, chest)
            }
            _ => run(
                rt,
                alloc,
                words,
                &mut source,
                &mut sink,
                shelf,
                chest,
                &gate,
            ),
        };
        Outcome {
            status: ended.status,
            missed: gate.missed(),
            sink,
            shelf: Some(ended.shelf),
        }
    }

    // The files are those of the folder. What is written stays in memory.
    fn play_on_files(&self, words: &str) -> io::Result<Outcome> {
        let alloc = self.rt.alloc();
        let words = words_in(alloc, words)?;
        let mut source = MemorySource::new(Vec::new(alloc), 1, Vec::new(alloc));
        let mut sink = plain_sink(alloc);
        let status = self.status_on_files(&words, &mut source, &mut sink);
        Ok(outcome_of(status, sink))
    }

    // The same from the standard input to the standard output.
    fn play_on_system(&self, words: &str) -> io::Result<Outcome> {
        let alloc = self.rt.alloc();
        let words = words_in(alloc, words)?;
        let mut source = StdSource::new(self.rt);
        let mut sink = StdSink::new(self.rt);
        let status = self.status_on_files(&words, &mut source, &mut sink);
        Ok(outcome_of(status, plain_sink(alloc)))
    }

    fn status_on_files<S: Source, K: Sink>(
        &self,
        words: &[&str],
        source: &mut S,
        sink: &mut K,
    ) -> u8 {
        let alloc = self.rt.alloc();
        let shelf = FileShelf::new(self.rt);
        let ended = run(
            self.threads,
            alloc,
            words,
            source,
            sink,
            shelf,
            Vec::new(alloc),
            &OpenGate,
        );
        ended.status
    }
}

// The end of a run without a shelf in memory.
fn outcome_of(status: u8, sink: MemorySink) -> Outcome {
    Outcome {
        status,
        missed: false,
        sink,
        shelf: None,
    }
}

// The source of an audit: a head with the length of the script, the script, and what was printed.
fn printed_run(alloc: Global, row: &Row<'_>, printed: &[u8]) -> io::Result<Vec<u8>> {
    let script = row.source(alloc)?;
    let head = format!(in alloc; "script {}\n", script.len())?;
    let mut source = head.as_bytes().to_vec(alloc)?;
    source.extend_from_slice(&script)?;
    source.extend_from_slice(printed)?;
    Ok(source)
}
