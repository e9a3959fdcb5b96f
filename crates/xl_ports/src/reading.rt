ghost use Rattle.std.specs.Prelude.{◌≡◌, ◌⊎◌, ◌+◌, ◌<◌, ◌≤◌, ℕ, List, vec_len, length, take, drop, IfOk, OnErr};
ghost use Rattle.xl_ports.specs.Faults.{HasCauseOrMemory};
ghost use Rattle.xl_ports.specs.Source.{led_by, IsEnded};

use crate::failed::FailedOrMemory;
use crate::room::make_room;
use crate::source::Source;
use std::alloc::Global;

/// The bytes that the source has left, the first `limit` of them where there are more.
///
/// Each call of `read` but the last takes a byte, so there are no more calls than bytes that are asked for. After an
/// error some of the bytes were taken and are lost.
pub fn read_all<S: Source>(
    alloc: Global,
    source: &mut S,
    limit: usize,
) -> Result<Vec<u8>, FailedOrMemory>
    ensures within { IfOk result (λ bytes. length bytes.items ≤ limit) }
    ensures given { IfOk result (λ bytes. S.left source.old ≡ led_by bytes.items
        (S.left source.new)) }
    ensures all { IfOk result (λ bytes. (length bytes.items ≡ limit) ⊎ IsEnded
        (S.left source.new)) }
    ensures reads { S.reads source.new ≤ S.reads source.old + limit }
    ensures some { OnErr result ((bytes : List ℕ)
        × (S.left source.old ≡ led_by bytes (S.left source.new)) × (length bytes ≤ limit)) }
    ensures cause { HasCauseOrMemory (S.faults source.old) (S.faults source.new) result }
{
    let mut bytes = Vec::new(alloc);
    let mut filled = 0;
    while filled < limit {
        let taken = read_more(source, &mut bytes, filled, limit)?;
        if taken == 0 {
            break;
        }
        filled += taken;
    }
    bytes.truncate(filled);
    Ok(bytes)
}

// The next bytes of the source, behind those that were filled in before.
fn read_more<S: Source>(
    source: &mut S,
    bytes: &mut Vec<u8>,
    filled: usize,
    limit: usize,
) -> Result<usize, FailedOrMemory>
    requires below { filled < limit }
    requires filled { filled ≤ vec_len bytes.old }
    requires short { vec_len bytes.old ≤ limit }
    ensures front { take filled bytes.new.items ≡ take filled bytes.old.items }
    ensures within { IfOk result (λ k. filled + k ≤ vec_len bytes.new) }
    ensures short { vec_len bytes.new ≤ limit }
    ensures given { IfOk result (λ k. S.left source.old ≡ led_by
        (take k (drop filled bytes.new.items)) (S.left source.new)) }
    ensures end { IfOk result (λ k. k ≡ 0 → IsEnded (S.left source.new)) }
    ensures reads { S.reads source.new ≤ S.reads source.old + 1 }
    ensures as_before { OnErr result (S.left source.new ≡ S.left source.old) }
    ensures cause { HasCauseOrMemory (S.faults source.old) (S.faults source.new) result }
{
    make_room(bytes, filled, limit)?;
    Ok(source.read(&mut bytes[filled..])?)
}
