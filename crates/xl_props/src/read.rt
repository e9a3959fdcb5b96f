ghost use Rattle.std.specs.Prelude.{◌≡◌, ◌+◌, ◌^◌, ◌≤◌, length, IfOk};
ghost use Rattle.spec_document.specs.Limits.{AreKept};
ghost use Rattle.xl_fields.specs.Gives.{Gives};
ghost use Rattle.xl_props.specs.Known.{IsKnown};
ghost use Rattle.xl_props.specs.Next.{EndsFull};
ghost use Rattle.xl_props.specs.Props.{props_read};

use crate::answer::Props;
use crate::property::next_property;
use crate::so_far::{add, nothing};
use spec_document::numbers::END;
use spec_document::{MAX_KEPT, MAX_PROPERTIES, Owner};
use std::alloc::Global;
use xl_fields::{Kind, ReadRefused, ReadRefusedOrMemory, refuse, u32_at};

/// The end of a list, which alone may stand behind as many properties as a list has at most.
#[tactic(auto, unfolding(spec_props::specs::Reading::list_at, spec_props::specs::Reading::end_at))]
fn end_of_full(bytes: &[u8], at: usize) -> Result<(), ReadRefused>
    ensures read { EndsFull bytes.now at result }
    ensures fits { IfOk result (λ _. at + 8 ≤ length bytes.now) }
{
    if u32_at(bytes, at)? != END {
        return Err(refuse(Kind::TooMany, at));
    }
    u32_at(bytes, at + 4)?;
    Ok(())
}

/// The list of properties at an offset, up to its end, or its first fault.
///
/// TooMany at the type word of the 1025th property that is not the end, or of the 257th that is kept. BadProperty at a
/// length word above 2^24, and at the number of colours above 256. Truncated at the first word, payload or colour that
/// does not fit. Then the rules of the property's kind, as BadProperty at the type word where its length is wrong.
pub fn read_props(
    alloc: Global,
    bytes: &[u8],
    at: usize,
    owner: Owner,
) -> Result<Props, ReadRefusedOrMemory>
    ensures read { Gives result (props_read bytes.now owner at) }
    ensures known { IfOk result (λ props. IsKnown owner props.known) }
    ensures kept { IfOk result (λ props. AreKept owner props.kept) }
    ensures places { IfOk result (λ props. length props.places.kept ≡ length props.kept) }
    ensures next { IfOk result (λ props. props.next ≡ props.places.end + 8) }
    ensures within { IfOk result (λ props. props.next ≤ length bytes.now) }
{
    // No offset has a list where it has no word. Behind this, sums of offsets stay small.
    u32_at(bytes, at)?;
    let mut props = nothing(alloc, at);
    for _count in 0..MAX_PROPERTIES {
        let end = props.places.end;
        match next_property(bytes, owner, MAX_KEPT - props.kept.len(), end)? {
            None => return Ok(props),
            Some((kind, payload)) => add(&mut props, alloc, owner, kind, payload)?,
        }
    }
    end_of_full(bytes, props.places.end)?;
    Ok(props)
}
