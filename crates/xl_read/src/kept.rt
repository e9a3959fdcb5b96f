ghost use Rattle.std.specs.Prelude.{◌≡◌, ◌≤◌, ◌+◌, length, IfOk};
ghost use Rattle.spec_document.specs.Document.{kept_bytes};
ghost use Rattle.spec_fields.specs.Reading.{unless};
ghost use Rattle.xl_read.specs.Listing.{over};
ghost use Rattle.spec_document.specs.declared.TheConstants.{MAX_KEPT_BYTES};

use spec_document::MAX_KEPT_BYTES;
use xl_fields::{Kind, ReadRefused, refuse};
use xl_props::{Offsets, PropList};

/// How many bytes of payload a list keeps.
pub fn payload_bytes(kept: &PropList) -> u64
    requires { kept_bytes kept.now ≤ MAX_KEPT_BYTES }
    ensures { result ≡ kept_bytes kept.now }
{
    kept.as_slice().iter().map(|k| k.payload.len() as u64).sum()
}

/// Refuses, as TooLarge, the first payload with which more bytes are kept than may be. The properties stand at these
/// places, and `before` bytes are kept before them.
#[tactic(auto, using(crate::proofs::Payloads::passed_not))]
pub fn within(kept: &PropList, places: &Offsets, before: u64) -> Result<(), ReadRefused>
    requires before { before ≤ MAX_KEPT_BYTES }
    requires places { length places.now ≡ length kept.now }
    ensures rule { result ≡ unless (over before kept.now places.now) }
    ensures room { IfOk result (λ _. before + kept_bytes kept.now ≤ MAX_KEPT_BYTES) }
{
    let places = places.as_slice();
    let mut total = before;
    for (i, property) in kept.as_slice().iter().enumerate() {
        let bytes = property.payload.len() as u64;
        if bytes > MAX_KEPT_BYTES - total {
            return Err(refuse(Kind::TooLarge, places[i]));
        }
        total += bytes;
    }
    Ok(())
}
