//! The bases of documents, and the types of layers.
ghost use Rattle.std.specs.Prelude.{◌≡◌, ◌≤◌};
ghost use Rattle.spec_document.specs.Document.{base_code, bytes_of_kind, picture_kind};

use spec_document::Base;

/// The number that a file has for a base.
pub fn base_code(base: Base) -> u32
    ensures value { result ≡ base_code base }
    ensures few { result ≤ 2 }
{
    match base {
        Base::Rgb => 0,
        Base::Grey => 1,
        Base::Indexed => 2,
    }
}

/// The bytes per pixel of a layer type.
pub fn bytes_of_kind(kind: u32) -> u32
    requires { kind ≤ 5 }
    ensures value { result ≡ bytes_of_kind kind }
    ensures some { 1 ≤ result }
    ensures few { result ≤ 4 }
{
    let colours = if kind / 2 == 0 { 3 } else { 1 };
    colours + kind % 2
}

/// The kind of layer that a picture is written as: RGB with alpha, or in a grey document grey with alpha.
pub fn picture_kind(base: Base) -> u32
    ensures { result ≡ picture_kind base }
{
    match base {
        Base::Rgb | Base::Indexed => 1,
        Base::Grey => 3,
    }
}
