ghost use Rattle.std.specs.Prelude.{◌≡◌, ◌<◌, ◌≤◌, ℕ, List, Option, length, take, IfOk, OnErr};
ghost use Rattle.xl_ports.specs.Faults.{HasCause};
ghost use Rattle.xl_ports.specs.Sink.{appended};

use crate::failed::Failed;

/// A place for bytes outside.
pub trait Sink {
    /// The bytes taken so far, where they are known.
    ghost held: { Self → Option (List ℕ) };

    /// How often it has failed. It never falls.
    ghost faults: { Self → ℕ };

    /// Takes the first bytes, at least one where there are some, and answers how many. After `Failed` none were taken.
    fn write(&mut self, bytes: &[u8]) -> Result<usize, Failed>
        ensures within { IfOk result (λ k. k ≤ length bytes.now) }
        ensures some { IfOk result (λ k. 0 < length bytes.now → 0 < k) }
        ensures taken { IfOk result (λ k. held self.new ≡ appended (held self.old)
            (take k bytes.now)) }
        ensures as_before { OnErr result (held self.new ≡ held self.old) }
        ensures cause { HasCause (faults self.old) (faults self.new) result };
}
