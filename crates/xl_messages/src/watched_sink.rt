ghost use Rattle.std.specs.Prelude.{◌≡◌};

use crate::idle_calls::IdleCalls;
use std::alloc::{AllocError, Global};
use xl_ports::{Failed, Sink};

/// A sink that hands all bytes on to another one. Of a command that prints replies it reads the lines that are taken.
#[derive(Drop)]
pub struct WatchedSink<K> {
    to: K,
    has_replies: bool,
    calls: IdleCalls,
}

impl<K: Sink> WatchedSink<K> {
    /// The sink, over which a command of these words is about to print.
    pub fn new(alloc: Global, words: &[&str], to: K) -> Self
        ensures held { ⟦<WatchedSink<K> as Sink>⟧.held result ≡ K.held to }
        ensures faults { ⟦<WatchedSink<K> as Sink>⟧.faults result ≡ K.faults to }
    {
        WatchedSink {
            to,
            has_replies: has_replies(words),
            calls: IdleCalls::new(alloc),
        }
    }

    /// The sink below.
    pub fn below(&self) -> &K {
        &self.to
    }

    /// Sentences on the calls that did nothing, a line each. Empty where each of them did what it asks for.
    pub fn sentences(&self, alloc: Global) -> Result<String, AllocError> {
        self.calls.sentences(alloc)
    }
}

// Whether what these words print are lines of replies.
fn has_replies(words: &[&str]) -> bool {
    match words.first() {
        Some(name) => *name == "edit" || *name == "view",
        None => false,
    }
}

impl<K: Sink> Sink for WatchedSink<K> {
    ghost held = { λ s. K.held s.to };

    ghost faults = { λ s. K.faults s.to };

    fn write(&mut self, bytes: &[u8]) -> Result<usize, Failed> {
        let taken = self.to.write(bytes)?;
        if self.has_replies {
            self.calls.read(&bytes[..taken]);
        }
        Ok(taken)
    }
}
