ghost use Rattle.std.specs.Prelude.{◌≡◌, ◌<◌, ◌≤◌, ℕ, List, Option, length, take, IfOk, OnErr};
ghost use Rattle.xl_ports.specs.Faults.{Counted, HasCause};
ghost use Rattle.xl_ports.specs.Source.{led_by, IsEnded};

use crate::failed::Failed;

/// Bytes that come from outside.
pub trait Source {
    /// The bytes not yet given, where they are known.
    ghost left: { Self → Option (List ℕ) };

    /// How often it has failed. It never falls.
    ghost faults: { Self → ℕ };

    /// How often `read` was called. It never falls.
    ghost reads: { Self → ℕ };

    /// Gives the next bytes in the first places of the buffer, and answers how many.
    ///
    /// 0, where some were asked for, means the end. Behind those that were given, and after `Failed` in all its places,
    /// the buffer holds anything. After `Failed` none were taken.
    fn read(&mut self, buf: &mut [u8]) -> Result<usize, Failed>
        ensures within { IfOk result (λ k. k ≤ length buf.old) }
        ensures given { IfOk result (λ k. left self.old ≡ led_by (take k buf.new) (left self.new)) }
        ensures end { IfOk result (λ k. k ≡ 0 → 0 < length buf.old → IsEnded (left self.old)) }
        ensures as_before { OnErr result (left self.new ≡ left self.old) }
        ensures counted { Counted (reads self.old) (reads self.new) }
        ensures cause { HasCause (faults self.old) (faults self.new) result };
}
