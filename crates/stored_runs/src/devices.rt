//! The devices in memory that a row asks for.

use crate::row::{Row, bad_row, number_in, words_in};
use std::alloc::Global;
use std::{fs, io};
use xl_fakes::{Hold, HoldGate, MemoryShelf, MemorySink, MemorySource};
use xl_ports::{Actor, Place};

/// The name of the file on the shelf.
pub const NAME: &str = "f";

/// How many bytes the source gives at a time.
const READ_STEP: usize = 7;

/// How many bytes the sink takes at a time, where the row does not say.
const WRITE_STEP: u32 = 1 << 20;

/// How often a hold looks at most.
const MOST_LOOKS: u32 = 100_000_000;

#[derive(Drop)]
pub struct Devices {
    pub shelf: MemoryShelf,
    pub source: MemorySource,
    pub sink: MemorySink,
    pub gate: HoldGate,
}

/// A sink that takes all.
pub fn plain_sink(alloc: Global) -> MemorySink {
    MemorySink::new(alloc, 1 << 20, Vec::new(alloc))
}

/// The devices of a row, with these bytes in the source.
pub fn devices_of(rt: &HostRuntime, row: &Row<'_>, source: Vec<u8>) -> io::Result<Devices> {
    let alloc = rt.alloc();
    let shelf = shelf_of(alloc, row, file_of(rt, row)?)?;
    let gate = gate_of(alloc, row)?;
    let sink = sink_of(alloc, row)?;
    let reads = row.numbers(alloc, "failing-read")?;
    Ok(Devices {
        shelf,
        source: MemorySource::new(source, READ_STEP, reads),
        sink,
        gate,
    })
}

// The file that a row names, cut behind its first bytes or with another word at an offset where the row says so.
fn file_of(rt: &HostRuntime, row: &Row<'_>) -> io::Result<Vec<u8>> {
    let mut file = fs::read(rt, row.needed("file")?)?;
    if let Some(count) = row.number("first")? {
        file.truncate(count as usize);
    }
    if let Some(change) = row.value("word")? {
        put_word(&mut file, change)?;
    }
    Ok(file)
}

// Puts a word into a file by a text such as `55 at 47`.
fn put_word(file: &mut [u8], change: &str) -> io::Result<()> {
    let (word, at) = change.split_once(" at ").unwrap_or((change, ""));
    let word = number_in(word)?.to_be_bytes();
    let at = number_in(at)? as usize;
    if at + 4 > file.len() {
        return Err(bad_row());
    }
    file[at..at + 4].copy_from_slice(&word);
    Ok(())
}

fn shelf_of(alloc: Global, row: &Row<'_>, file: Vec<u8>) -> io::Result<MemoryShelf> {
    let calls = row.numbers(alloc, "failing-call")?;
    let stop = row.number("failing-from")?;
    let mut files = Vec::new(alloc);
    files.push((String::from_str(alloc, NAME)?, file))?;
    Ok(MemoryShelf::new(alloc, files, calls, stop)?)
}

fn sink_of(alloc: Global, row: &Row<'_>) -> io::Result<MemorySink> {
    let step = row.number("step")?.unwrap_or(WRITE_STEP).max(1);
    let writes = row.numbers(alloc, "failing-write")?;
    Ok(MemorySink::new(alloc, step as usize, writes))
}

// A gate with the holds of a row.
fn gate_of(alloc: Global, row: &Row<'_>) -> io::Result<HoldGate> {
    let mut holds = Vec::new(alloc);
    for part in &row.parts {
        if part.key == "hold" {
            holds.push(hold_in(alloc, part.value)?)?;
        }
    }
    Ok(HoldGate::new(alloc, holds, MOST_LOOKS)?)
}

// A hold by a text such as `worker 0 job 0 until session 0 call 1`: the first pass waits for the second one. A pass says
// who passes where, and which of these passes it is, from 0.
fn hold_in(alloc: Global, text: &str) -> io::Result<Hold> {
    let words = words_in(alloc, text)?;
    if let [
        kind,
        number,
        place,
        nth,
        "until",
        until_kind,
        until_number,
        until_place,
        until_nth,
    ] = words.as_slice()
    {
        return Ok(Hold {
            actor: actor_in(*kind, *number)?,
            place: place_in(*place)?,
            nth: number_in(*nth)?,
            until_actor: actor_in(*until_kind, *until_number)?,
            until_place: place_in(*until_place)?,
            until_nth: number_in(*until_nth)?,
        });
    }
    Err(bad_row())
}

fn actor_in(kind: &str, number: &str) -> io::Result<Actor> {
    let Ok(number) = number.parse::<u8>() else {
        return Err(bad_row());
    };
    match kind {
        "session" => Ok(Actor::Session(number)),
        "worker" => Ok(Actor::Worker(number)),
        _ => Err(bad_row()),
    }
}

fn place_in(word: &str) -> io::Result<Place> {
    match word {
        "call" => Ok(Place::BeforeCall),
        "answer" => Ok(Place::AfterCall),
        "job" => Ok(Place::JobTaken),
        "picture" => Ok(Place::BeforeFinish),
        _ => Err(bad_row()),
    }
}
