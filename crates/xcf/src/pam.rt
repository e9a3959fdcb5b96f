ghost use Rattle.std.specs.Prelude.{◌≡◌, IfOk, string_bytes};
ghost use Rattle.spec_report.specs.Pam.{pam_head as head_of};

use std::alloc::{AllocError, Global};

/// The head of a PAM of these sides, behind which its RGBA bytes stand, as [`crate::picture`] gives them. Its one error
/// is that memory ran out.
pub fn pam_head(alloc: Global, width: u32, height: u32) -> Result<String, AllocError>
    ensures { IfOk result (λ text. string_bytes text ≡ head_of width height) }
{
    let mut text = String::new(alloc);
    text.push_str("P7\nWIDTH ")?;
    text.push_str(width.to_string(alloc)?.as_str())?;
    text.push_str("\nHEIGHT ")?;
    text.push_str(height.to_string(alloc)?.as_str())?;
    text.push_str("\nDEPTH 4\nMAXVAL 255\nTUPLTYPE RGB_ALPHA\nENDHDR\n")?;
    Ok(text)
}
