ghost use Rattle.std.specs.Prelude.{◌≡◌, None};
ghost use Rattle.xl_ports.specs.Faults.{Rose};

use std::io;
use std::io::{ErrorKind, Print, Stdout};
use xl_ports::{Failed, Sink};

/// The standard output. What it takes is not told.
#[derive(Drop)]
pub struct StdSink {
    out: Stdout,
    faults: u64,
    // Why the last write failed that did.
    error: Option<io::Error>,
}

impl StdSink {
    /// The standard output, without a fault.
    pub fn new(rt: &HostRuntime) -> Self
        ensures { result.faults ≡ 0 }
    {
        StdSink {
            out: rt.stdout(),
            faults: 0,
            error: None,
        }
    }

    /// What the system said of the last write that failed, or that it took no byte, for people to be told. No clause
    /// speaks of it.
    pub fn error(&self) -> Option<&io::Error> {
        self.error.as_ref()
    }

    // Counts a fault.
    fn fail(&mut self, error: io::Error) -> Failed
        ensures { Rose self.old.faults self.new.faults }
    {
        self.faults = self.faults.saturating_add(1);
        self.error = Some(error);
        Failed
    }
}

impl Sink for StdSink {
    ghost held = { λ s. None };

    ghost faults = { λ s. s.faults };

    fn write(&mut self, bytes: &[u8]) -> Result<usize, Failed> {
        match self.out.write_some(bytes) {
            Ok(0) if !bytes.is_empty() => {
                let none = io::Error::new(ErrorKind::WriteZero, "the system took no byte");
                Err(self.fail(none))
            }
            Ok(taken) => Ok(taken),
            Err(error) => Err(self.fail(error)),
        }
    }
}
