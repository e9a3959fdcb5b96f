ghost use Rattle.std.specs.Prelude.{◌≡◌, ◌⊎◌, ◌<◌, ◌≤◌, ◌++◌, [], Some, length, take, IfOk, OnOk, OnErr, IsErr, is_err};
ghost use Rattle.xl_ports.specs.Faults.{HasCause, Rose};
ghost use Rattle.xl_fakes.specs.Fakes.{NextFails, with_call, no_calls, CountsStarved};

use crate::calls::Calls;
use std::alloc::Global;
use std::marker::Model;
use xl_ports::{Failed, Sink};

/// A sink that holds its bytes in a vector.
#[derive(Drop)]
pub struct MemorySink {
    held: Vec<u8>,
    step: usize,
    starved: u64,
    calls: Calls,
}

impl Model for MemorySink {
    ghost use Rattle.std.specs.Prelude.{◌<◌};
    ghost use Rattle.xl_fakes.specs.Fakes.{SinkState};

    ghost Value = { SinkState };

    ghost view = { λ s. record { held = s.held.items; step = s.step; starved = s.starved; calls = s.calls } };

    ghost invariant = { λ s. 0 < s.step };
}

impl MemorySink {
    /// A sink that takes at most `step` bytes at a time, and fails at the writes whose numbers from 0 are in `fails`.
    pub fn new(alloc: Global, step: usize, fails: Vec<u32>) -> Self
        requires { 0 < step }
        ensures { result
            ≡ record { held = []; step = step; starved = 0; calls = no_calls fails.items } }
    {
        MemorySink {
            held: Vec::new(alloc),
            step,
            starved: 0,
            calls: Calls::new(fails),
        }
    }

    /// The bytes taken so far.
    pub fn held(&self) -> &[u8]
        ensures { result.now ≡ self.now.held }
    {
        &self.held
    }

    /// How many writes found no memory inside.
    pub fn starved(&self) -> u64
        ensures { result ≡ self.now.starved }
    {
        self.starved
    }
}

impl Sink for MemorySink {
    ghost held = { λ s. Some s.held };

    ghost faults = { λ s. s.calls.faults };

    fn write(&mut self, bytes: &[u8]) -> Result<usize, Failed>
        ensures within { IfOk result (λ k. k ≤ length bytes.now) }
        ensures some { IfOk result (λ k. 0 < length bytes.now → 0 < k) }
        ensures taken { IfOk result (λ k. self.new.held ≡ self.old.held ++ take k bytes.now) }
        ensures as_before { OnErr result (self.new.held ≡ self.old.held) }
        ensures cause { HasCause self.old.calls.faults self.new.calls.faults result }
        ensures fails { NextFails self.old.calls → IsErr result }
        ensures starved { OnErr result (NextFails self.old.calls ⊎ Rose self.old.starved
            self.new.starved) }
        ensures step { IfOk result (λ k. k ≤ self.old.step) }
        ensures same_step { self.new.step ≡ self.old.step }
        ensures listed { NextFails self.old.calls → self.new.starved ≡ self.old.starved }
        ensures not_starved { OnOk result (self.new.starved ≡ self.old.starved) }
        ensures counted { CountsStarved self.old.starved self.new.starved }
        ensures calls { self.new.calls ≡ with_call (is_err result) self.old.calls }
    {
        let failed = self.calls.next_fails();
        let taken = bytes.len().min(self.step);
        let starved = !failed && self.held.extend_from_slice(&bytes[..taken]).is_err();
        self.calls.count(failed || starved);
        if starved {
            self.starved = self.starved.saturating_add(1);
        }
        if failed || starved {
            Err(Failed)
        } else {
            Ok(taken)
        }
    }
}
