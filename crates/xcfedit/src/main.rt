//! `xcfedit render FILE` writes a file of GIMP's as a PAM to the standard output, `xcfedit info FILE` its layers as a
//! line of JSON. `xcfedit edit FILE` makes the calls and saves of a script from the standard input on such a file, and
//! writes the replies; `xcfedit view FILE` makes the calls of one and shows windows, and `xcfedit audit FILE` judges
//! what an edit is said to have printed. `xcfedit serve FILE` answers the lines of a script one by one, as they come.
//! `xcfedit make FILE` saves what a seed makes, `xcfedit pack FILE` the smallest file, and `xcfedit flatten FILE` one
//! layer in the place of all. Where a command stops, or a call of a script does nothing, a sentence on the standard
//! error says why.
#![tactic(auto)]

use std::alloc::AllocError;
use std::fs::File;
use std::process::ExitCode;
use std::sync::Wait;
use std::thread::Threads;
use std::{env, io};
use xl_filters::{Fade, Invert, PointFilter, Posterize, Threshold};
use xl_messages::{FOUND_LEN, WatchedSink, load_found, message};
use xl_program::{Ended, run};
use xl_real::{FileShelf, OpenGate, StdSink, StdSource};
use xl_serving::serve;

/// The status where all went well.
const DONE: u8 = 0;

/// The status where memory ran out before the command began.
const MEMORY: u8 = 8;

/// The status where the file could not be read, or a save failed.
const SHELF_FAULT: u8 = 6;

/// The status where the output could not be written.
const SINK_FAULT: u8 = 7;

const SESSIONS: usize = 8;

/// What stands for a standard input, output or error that the program was started without. A folder can neither be read
/// nor written.
const NO_STREAM: &str = "/";

// The words behind the program's name.
fn words_given(rt: &HostRuntime) -> io::Result<Vec<String>> {
    let mut words = env::args(rt)?;
    let _program = words.next();
    Ok(words.collect(rt.alloc())?)
}

// Whether the words ask for a talk, or would if they were in order.
fn is_served(words: &[&str]) -> bool {
    match words.first() {
        Some(name) => *name == "serve",
        None => false,
    }
}

// Does what the words ask for, over the real devices. Each session has four filters, in its slots 0 to 3.
fn run_with_filters<R: Threads + Wait + Sync>(
    rt: &HostRuntime,
    threads: &R,
    words: &[&str],
    sink: &mut WatchedSink<StdSink>,
) -> Result<Ended<FileShelf>, AllocError> {
    let alloc = rt.alloc();
    let mut chest: Vec<Vec<Box<dyn PointFilter + Send>>> = Vec::with_capacity(alloc, SESSIONS)?;
    for _ in 0..SESSIONS {
        let mut boxes: Vec<Box<dyn PointFilter + Send>> = Vec::with_capacity(alloc, 4)?;
        boxes.push(Box::new(alloc, Invert::new(0))?)?;
        boxes.push(Box::new(alloc, Threshold::new(128))?)?;
        boxes.push(Box::new(alloc, Posterize::new(4))?)?;
        boxes.push(Box::new(alloc, Fade::new(100))?)?;
        chest.push(boxes)?;
    }
    let mut source = StdSource::new(rt);
    let shelf = FileShelf::new(rt);
    if is_served(words) {
        return Ok(serve(threads, alloc, words, &mut source, sink, shelf, chest));
    }
    Ok(run(
        threads,
        alloc,
        words,
        &mut source,
        sink,
        shelf,
        chest,
        &OpenGate,
    ))
}

// Says which calls did nothing, a line each. Where the standard error cannot be written there is nothing else to say it
// with.
fn tell_calls(rt: &HostRuntime, sink: &WatchedSink<StdSink>) {
    if let Ok(text) = sink.sentences(rt.alloc()) {
        let _ = rt.eprint(text);
    }
}

// Says why a command stopped, and where it stopped at the file or at the output what the system said of that.
fn tell_stop(rt: &HostRuntime, words: &[&str], ended: &mut Ended<FileShelf>, out: &StdSink) {
    let alloc = rt.alloc();
    let cause = ended.cause;
    let mut found = [0; FOUND_LEN];
    let count = load_found(alloc, &mut ended.shelf, words, cause, &mut found);
    let Ok(text) = message(alloc, words, ended.status, cause, &found[..count]) else {
        return;
    };
    let _ = match (ended.status, ended.shelf.error(), out.error()) {
        (SHELF_FAULT, Some(error), _) => eprintln!(rt; "{text}: {error}"),
        (SINK_FAULT, _, Some(error)) => eprintln!(rt; "{text}: {error}"),
        _ => rt.eprintln(text),
    };
}

fn start<R: Threads + Wait + Sync>(rt: &HostRuntime, threads: &R) -> Result<u8, AllocError> {
    let alloc = rt.alloc();
    let given = match words_given(rt) {
        Ok(words) => words,
        Err(error) if error.kind() == io::ErrorKind::OutOfMemory => return Err(AllocError),
        // Words that cannot be read are no command, like none at all.
        Err(_) => {
            let _ = eprintln!(rt; "xcfedit: an argument is no UTF-8");
            Vec::new(alloc)
        }
    };
    let mut words = Vec::new(alloc);
    for word in &given {
        words.push(word.as_str())?;
    }
    let mut sink = WatchedSink::new(alloc, &words, StdSink::new(rt));
    let mut ended = run_with_filters(rt, threads, &words, &mut sink)?;
    tell_calls(rt, &sink);
    if ended.status != DONE {
        tell_stop(rt, &words, &mut ended, sink.below());
    }
    Ok(ended.status)
}

fn main(rt: HostRuntime) -> ExitCode {
    // A file that is opened gets the lowest number that is free. Where one of the three streams is closed that would be
    // its number, and what is meant for the stream would be written into the file.
    let _streams = [
        File::open(&rt, NO_STREAM),
        File::open(&rt, NO_STREAM),
        File::open(&rt, NO_STREAM),
    ];
    ExitCode::from(start(&rt, &rt).unwrap_or(MEMORY))
}
