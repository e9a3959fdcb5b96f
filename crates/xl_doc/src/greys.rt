//! The bytes that pixels have in a document of a base, out of RGBA bytes.
ghost use Rattle.std.specs.Prelude.{◌≡◌, IfOk};
ghost use Rattle.spec_document.specs.Greys.{pixels_of_base, red_and_alpha};

use spec_document::Base;
use std::alloc::{AllocError, Global};

/// The red byte and the alpha of each pixel.
#[tactic(auto, using(crate::proofs::RedAndAlpha::no_pixel))]
pub fn red_and_alpha(alloc: Global, rgba: &[u8]) -> Result<Vec<u8>, AllocError>
    ensures { IfOk result (λ out. out.items ≡ red_and_alpha rgba.now) }
{
    let pixels = rgba.len() / 4;
    let mut out = Vec::with_capacity(alloc, 2 * pixels)?;
    for i in 0..pixels {
        out.push(rgba[4 * i])?;
        out.push(rgba[4 * i + 3])?;
    }
    Ok(out)
}

/// The bytes of each pixel that a picture has as a layer or a group of a document of this base.
pub fn pixels_of_base(alloc: Global, base: Base, rgba: Vec<u8>) -> Result<Vec<u8>, AllocError>
    ensures { IfOk result (λ out. out.items ≡ pixels_of_base base rgba.items) }
{
    match base {
        Base::Rgb | Base::Indexed => Ok(rgba),
        Base::Grey => red_and_alpha(alloc, &rgba),
    }
}
