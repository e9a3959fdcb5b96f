ghost use Rattle.std.specs.Prelude.{◌≡◌, ◌≤◌, ◌<◌, length, Option, Some, IfOk};
ghost use Rattle.spec_document.specs.Limits.{IsSide};
ghost use Rattle.spec_document.specs.Document.{is_indexed};
ghost use Rattle.spec_file.specs.Header.{begins, version_of, base_of, side_at, header_of, is_side};

use spec_document::Base;
use spec_file::FILE_LIMIT;
use std::marker::Model;
use xl_doc::MAX_SIDE;
use xl_fields::{Kind, ReadRefused, refuse, u32_at};

/// How many bytes the magic and the version take.
const VERSION_END: usize = 14;

/// The sides of the canvas, and what its pixels mean.
#[derive(Drop)]
pub struct Header {
    pub width: u32,
    pub height: u32,
    pub base: Base,
}

impl Model for Header {
    ghost use Rattle.spec_file.specs.Header as head;

    ghost Value = { head.Header };

    ghost view = { λ h. record { width = h.width; height = h.height; base = h.base } };
}

/// Whether these bytes stand at the offset.
fn begins(bytes: &[u8], at: usize, word: &[u8]) -> bool
    requires { at ≤ length bytes.now }
    ensures { result ≡ begins bytes.now at word.now }
{
    bytes[at..].starts_with(word)
}

/// The version that a file names at byte 9, from 0 to 3.
fn version_of(bytes: &[u8]) -> Option<u8>
    requires { 9 ≤ length bytes.now }
    ensures { result ≡ version_of bytes.now }
{
    if begins(bytes, 9, b"file\0") {
        Some(0)
    } else if begins(bytes, 9, b"v001\0") {
        Some(1)
    } else if begins(bytes, 9, b"v002\0") {
        Some(2)
    } else if begins(bytes, 9, b"v003\0") {
        Some(3)
    } else {
        None
    }
}

/// The base that a file has this code for.
fn base_of(code: u32) -> Option<Base>
    ensures { result ≡ base_of code }
{
    match code {
        0 => Some(Base::Rgb),
        1 => Some(Base::Grey),
        2 => Some(Base::Indexed),
        _ => None,
    }
}

/// Whether the pixels are numbers of colours.
pub fn is_indexed(base: Base) -> bool
    ensures { result ≡ is_indexed base }
{
    base == Base::Indexed
}

/// Whether it is a side of a canvas or a layer.
pub fn is_side(n: u32) -> bool
    ensures { result ≡ is_side n }
{
    1 <= n && n <= MAX_SIDE
}

/// The side at an offset. BadSize there where it is none.
#[tactic(auto, unfolding(spec_file::specs::Header::side_at))]
fn side_at(bytes: &[u8], at: usize) -> Result<u32, ReadRefused>
    ensures read { result ≡ side_at bytes.now at }
    ensures side { IfOk result (λ n. IsSide n) }
{
    let n = u32_at(bytes, at)?;
    if !is_side(n) {
        return Err(refuse(Kind::BadSize, at));
    }
    Ok(n)
}

/// The head of a file, or its first fault.
///
/// TooLarge for a file of `FILE_LIMIT` bytes or more, then NotXcf, Version, BadSize of a side, BaseType, and
/// OldColourMap for an indexed image of version 0; Truncated at the first field that is not there.
#[tactic(auto, unfolding(spec_file::specs::Header::header_of))]
pub fn header_at(bytes: &[u8]) -> Result<Header, ReadRefused>
    requires { length bytes.now ≤ FILE_LIMIT }
    ensures read { result ≡ header_of bytes.now }
    ensures width { IfOk result (λ h. IsSide h.width) }
    ensures height { IfOk result (λ h. IsSide h.height) }
    ensures short { IfOk result (λ h. length bytes.now < FILE_LIMIT) }
{
    if bytes.len() >= FILE_LIMIT {
        return Err(refuse(Kind::TooLarge, FILE_LIMIT - 1));
    }
    if !begins(bytes, 0, b"gimp xcf ") {
        return Err(refuse(Kind::NotXcf, 0));
    }
    if bytes.len() < VERSION_END {
        return Err(refuse(Kind::Truncated, 9));
    }
    let version = version_of(bytes).ok_or(refuse(Kind::Version, 9))?;
    let width = side_at(bytes, 14)?;
    let height = side_at(bytes, 18)?;
    let code = u32_at(bytes, 22)?;
    let base = base_of(code).ok_or(refuse(Kind::BaseType, 22))?;
    if is_indexed(base) && version == 0 {
        return Err(refuse(Kind::OldColourMap, 22));
    }
    Ok(Header {
        width,
        height,
        base,
    })
}
