ghost use Rattle.std.specs.Prelude.{◌≡◌, None};

use std::io::{Read, Stdin};
use xl_ports::{Failed, Source};

/// The standard input. What it has left is not told.
#[derive(Drop)]
pub struct StdSource {
    input: Stdin,
    faults: u64,
    reads: u64,
}

impl StdSource {
    /// The standard input, not read yet and without a fault.
    pub fn new(rt: &HostRuntime) -> Self
        ensures faults { result.faults ≡ 0 }
        ensures reads { result.reads ≡ 0 }
    {
        StdSource {
            input: rt.stdin(),
            faults: 0,
            reads: 0,
        }
    }
}

impl Source for StdSource {
    ghost left = { λ s. None };

    ghost faults = { λ s. s.faults };

    ghost reads = { λ s. s.reads };

    fn read(&mut self, buf: &mut [u8]) -> Result<usize, Failed> {
        self.reads = self.reads.saturating_add(1);
        match self.input.read(buf) {
            Ok(given) => Ok(given),
            Err(_) => {
                self.faults = self.faults.saturating_add(1);
                Err(Failed)
            }
        }
    }
}
