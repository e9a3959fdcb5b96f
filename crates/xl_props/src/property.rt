ghost use Rattle.std.specs.Prelude.{◌≡◌, ◌≢◌, ◌+◌, ◌^◌, ◌≤◌, ◌||◌, nat_lt, true, length, IfOk, IfSome, IfNone};
ghost use Rattle.spec_document.specs.Limits.{interprets};
ghost use Rattle.xl_props.specs.Props.{property};
ghost use Rattle.xl_props.specs.Checked.{IsChecked};
ghost use Rattle.xl_props.specs.Next.{IsPropertyAt, GoesOn};

use crate::payload::payload_len;
use crate::rules::check_rules;
use crate::so_far::is_interpreted;
use spec_document::Owner;
use spec_document::numbers::END;
use xl_fields::{Kind, ReadRefused, refuse, u32_at};

/// The payload of the property at an offset, or its first fault.
#[tactic(auto, unfolding(spec_props::specs::Reading::property_at))]
fn payload_at(bytes: &[u8], owner: Owner, kind: u32, at: usize) -> Result<&[u8], ReadRefused>
    requires place { at + 4 ≤ length bytes.now }
    requires not_end { kind ≢ 0 }
    ensures read { IsPropertyAt bytes.now owner kind at result }
    ensures fits { IfOk result (λ payload. at + 8 + length payload.now ≤ length bytes.now) }
    ensures checked { IfOk result (λ payload. IsChecked owner (property 0 kind payload.now)) }
{
    let n = payload_len(bytes, owner, kind, at)?;
    let payload = &bytes[at + 8..at + 8 + n];
    check_rules(at, owner, kind, payload)?;
    Ok(payload)
}

/// Whether there is room for a property of a kind, where `kept` more may be kept.
fn may_stand(owner: Owner, kind: u32, kept: usize) -> bool
    ensures { result ≡ (interprets owner kind || nat_lt 0 kept) }
{
    is_interpreted(owner, kind) || kept > 0
}

/// The number and the payload of the next property at an offset, where `kept` more may be kept. None at the end of the
/// list.
#[tactic(auto, unfolding(spec_props::specs::Reading::list_at, spec_props::specs::Reading::end_at))]
pub fn next_property(
    bytes: &[u8],
    owner: Owner,
    kept: usize,
    at: usize,
) -> Result<Option<(u32, &[u8])>, ReadRefused>
    ensures goes_on { GoesOn kept bytes.now owner at result }
    ensures room { IfOk result (λ next. IfSome next (λ p. (interprets owner p.0 || nat_lt 0 kept)
        ≡ true)) }
    ensures end { IfOk result (λ next. IfNone next (at + 8 ≤ length bytes.now)) }
    ensures fits { IfOk result (λ next. IfSome next (λ p. at + 8 + length p.1.now
        ≤ length bytes.now)) }
    ensures checked { IfOk result
        (λ next. IfSome next (λ p. IsChecked owner (property 0 p.0 p.1.now))) }
{
    let kind = u32_at(bytes, at)?;
    if kind == END {
        u32_at(bytes, at + 4)?;
        return Ok(None);
    }
    if !may_stand(owner, kind, kept) {
        return Err(refuse(Kind::TooMany, at));
    }
    let payload = payload_at(bytes, owner, kind, at)?;
    Ok(Some((kind, payload)))
}
