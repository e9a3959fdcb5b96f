use crate::replies::idle_text;
use std::alloc::{AllocError, Global};

// A line that is longer is the reply of no call that did nothing.
const MAX_LINE: usize = 64;

// How many calls have a sentence of their own.
const MAX_SENTENCES: u32 = 20;

/// The calls that did nothing, from the lines of their replies.
#[derive(Drop)]
pub struct IdleCalls {
    alloc: Global,
    // The line that is read, as far as it has come.
    line: Vec<u8>,
    // Whether it is too long, or memory for it ran out.
    is_skipped: bool,
    // The sentences on the first of the calls, a line each.
    text: String,
    told: u32,
    // How many calls have no sentence.
    untold: u64,
}

impl IdleCalls {
    /// No line was read.
    pub fn new(alloc: Global) -> Self {
        IdleCalls {
            alloc,
            line: Vec::new(alloc),
            is_skipped: false,
            text: String::new(alloc),
            told: 0,
            untold: 0,
        }
    }

    /// Reads the next bytes of the lines.
    pub fn read(&mut self, bytes: &[u8]) {
        for b in bytes {
            match *b {
                b'\n' => self.end_line(),
                b => self.add(b),
            }
        }
    }

    fn add(&mut self, b: u8) {
        if self.line.len() >= MAX_LINE || self.line.push(b).is_err() {
            self.is_skipped = true;
        }
    }

    fn end_line(&mut self) {
        if !self.is_skipped {
            self.tell();
        }
        self.line.clear();
        self.is_skipped = false;
    }

    // Takes the sentence on the line, if the call did nothing, or counts the call where there is no room or no memory.
    fn tell(&mut self) {
        match idle_text(self.alloc, &self.line) {
            Ok(None) => {}
            Ok(Some(text)) if self.told < MAX_SENTENCES && self.text.push_str(&text).is_ok() => {
                self.told += 1;
            }
            _ => self.untold = self.untold.saturating_add(1),
        }
    }

    /// The sentences, a line each, and how many calls have none.
    pub fn sentences(&self, alloc: Global) -> Result<String, AllocError> {
        let text = self.text.as_str();
        match self.untold {
            0 => String::from_str(alloc, text),
            1 => format!(in alloc; "{text}and 1 more call did nothing\n"),
            count => format!(in alloc; "{text}and {count} more calls did nothing\n"),
        }
    }
}
