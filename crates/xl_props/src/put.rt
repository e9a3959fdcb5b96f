//! One property after another, each at the end of what was written. Out of memory, a part of one may stand behind.

ghost use Rattle.std.specs.Prelude.{◌≡◌, ◌+◌, ◌*◌, ◌^◌, ◌<◌, ◌≤◌, ◌++◌, length, OnOk, OnErr, IfSome};
ghost use Rattle.spec_fields.specs.Put.{word};
ghost use Rattle.spec_props.specs.Layout.{path_bytes as words, all_colours, colour_bytes, property as raw, if_so};
ghost use Rattle.spec_props.specs.Layout.{property_bytes, list_bytes};
ghost use Rattle.xl_props.specs.Written.{flag_word, mode_word, offset_words, one_byte, if_there};
ghost use Rattle.xl_fields.specs.Behind.{BeginsWith};
ghost use Rattle.xl_props.specs.Known.{AreFewColours};

use crate::colour_list::ColourMap;
use crate::path_list::Path;
use spec_document::Mode;
use spec_document::numbers::{COLOUR_MAP, COMPRESSION, ITEM_PATH, MODE, OFFSETS, OPACITY};
use std::alloc::AllocError;
use xl_blend::code_of;
use xl_fields::put_u32;

fn put_word(out: &mut Vec<u8>, value: u32) -> Result<(), AllocError>
    ensures ok { OnOk result (out.new.items ≡ out.old.items ++ word value) }
    ensures err { OnErr result (out.new.items ≡ out.old.items) }
{
    put_u32(out, value)
}

/// The type word and the length word of a property with so many bytes of payload.
fn put_head(out: &mut Vec<u8>, kind: u32, len: usize) -> Result<(), AllocError>
    requires { len < 2 ^ 32 }
    ensures ok { OnOk result (out.new.items ≡ out.old.items ++ (word kind ++ word len)) }
    ensures front { BeginsWith out.new.items out.old.items }
{
    put_word(out, kind)?;
    put_word(out, len as u32)
}

/// A property of these bytes.
pub fn put(out: &mut Vec<u8>, kind: u32, payload: &[u8]) -> Result<(), AllocError>
    requires { length payload.now < 2 ^ 32 }
    ensures ok { OnOk result (out.new.items ≡ out.old.items ++ property_bytes
        (raw kind payload.now)) }
    ensures front { BeginsWith out.new.items out.old.items }
{
    put_head(out, kind, payload.len())?;
    out.extend_from_slice(payload)
}

/// A property of one word.
fn put_one_word(out: &mut Vec<u8>, kind: u32, value: u32) -> Result<(), AllocError>
    ensures ok { OnOk result (out.new.items ≡ out.old.items ++ property_bytes
        (raw kind (word value))) }
    ensures front { BeginsWith out.new.items out.old.items }
{
    put_head(out, kind, 4)?;
    put_word(out, value)
}

fn put_words(out: &mut Vec<u8>, values: &[u32]) -> Result<(), AllocError>
    ensures ok { OnOk result (out.new.items ≡ out.old.items ++ words values.now) }
    ensures front { BeginsWith out.new.items out.old.items }
{
    for value in values {
        put_word(out, *value)?;
    }
    Ok(())
}

/// The property of an item path.
fn put_places(out: &mut Vec<u8>, places: &[u32]) -> Result<(), AllocError>
    requires { length places.now ≤ 2 ^ 22 }
    ensures ok { OnOk result (out.new.items ≡ out.old.items ++ property_bytes
        (raw ITEM_PATH (words places.now))) }
    ensures front { BeginsWith out.new.items out.old.items }
{
    put_head(out, ITEM_PATH, 4 * places.len())?;
    put_words(out, places)
}

/// The item path, where there is one.
pub fn put_path(out: &mut Vec<u8>, path: &Option<Path>) -> Result<(), AllocError>
    requires { IfSome path.now (λ places. length places ≤ 2 ^ 22) }
    ensures ok { OnOk result (out.new.items ≡ out.old.items ++ list_bytes
        (if_there ITEM_PATH words path.now)) }
    ensures front { BeginsWith out.new.items out.old.items }
{
    match path {
        Some(path) => put_places(out, path.as_slice()),
        None => Ok(()),
    }
}

fn put_bytes_of_each(out: &mut Vec<u8>, colours: &[[u8; 3]]) -> Result<(), AllocError>
    ensures ok { OnOk result (out.new.items ≡ out.old.items ++ all_colours colours.now) }
    ensures front { BeginsWith out.new.items out.old.items }
{
    for colour in colours {
        out.extend_from_slice(colour)?;
    }
    Ok(())
}

/// The property of a colour map.
fn put_map(out: &mut Vec<u8>, colours: &[[u8; 3]]) -> Result<(), AllocError>
    requires { AreFewColours colours.now }
    ensures ok { OnOk result (out.new.items ≡ out.old.items ++ property_bytes
        (raw COLOUR_MAP (colour_bytes colours.now))) }
    ensures front { BeginsWith out.new.items out.old.items }
{
    put_head(out, COLOUR_MAP, 4 + 3 * colours.len())?;
    put_word(out, colours.len() as u32)?;
    put_bytes_of_each(out, colours)
}

/// The colour map, where there is one.
pub fn put_colours(out: &mut Vec<u8>, colours: &Option<ColourMap>) -> Result<(), AllocError>
    requires { IfSome colours.now AreFewColours }
    ensures ok { OnOk result (out.new.items ≡ out.old.items ++ list_bytes
        (if_there COLOUR_MAP colour_bytes colours.now)) }
    ensures front { BeginsWith out.new.items out.old.items }
{
    match colours {
        Some(colours) => put_map(out, colours.as_slice()),
        None => Ok(()),
    }
}

/// The compression, where there is one: a byte.
pub fn put_compression(out: &mut Vec<u8>, code: Option<u8>) -> Result<(), AllocError>
    ensures ok { OnOk result (out.new.items ≡ out.old.items ++ list_bytes
        (if_there COMPRESSION one_byte code)) }
    ensures front { BeginsWith out.new.items out.old.items }
{
    match code {
        Some(code) => put(out, COMPRESSION, &[code]),
        None => Ok(()),
    }
}

/// The opacity, where there is one: a word.
pub fn put_opacity(out: &mut Vec<u8>, opacity: Option<u8>) -> Result<(), AllocError>
    ensures ok { OnOk result (out.new.items ≡ out.old.items ++ list_bytes
        (if_there OPACITY word opacity)) }
    ensures front { BeginsWith out.new.items out.old.items }
{
    match opacity {
        Some(opacity) => put_one_word(out, OPACITY, u32::from(opacity)),
        None => Ok(()),
    }
}

/// The blend mode, where there is one: the word of its code.
pub fn put_mode(out: &mut Vec<u8>, mode: Option<Mode>) -> Result<(), AllocError>
    ensures ok { OnOk result (out.new.items ≡ out.old.items ++ list_bytes
        (if_there MODE mode_word mode)) }
    ensures front { BeginsWith out.new.items out.old.items }
{
    match mode {
        Some(mode) => put_one_word(out, MODE, code_of(mode)),
        None => Ok(()),
    }
}

/// A flag of a layer, where there is one: a word, 1 where it is set.
pub fn put_flag(out: &mut Vec<u8>, kind: u32, flag: Option<bool>) -> Result<(), AllocError>
    ensures ok { OnOk result (out.new.items ≡ out.old.items ++ list_bytes
        (if_there kind flag_word flag)) }
    ensures front { BeginsWith out.new.items out.old.items }
{
    match flag {
        Some(flag) => put_one_word(out, kind, u32::from(flag)),
        None => Ok(()),
    }
}

/// The property of offsets: two signed words.
fn put_point(out: &mut Vec<u8>, x: i32, y: i32) -> Result<(), AllocError>
    ensures ok { OnOk result (out.new.items ≡ out.old.items ++ property_bytes
        (raw OFFSETS (offset_words (x, y)))) }
    ensures front { BeginsWith out.new.items out.old.items }
{
    put_head(out, OFFSETS, 8)?;
    put_word(out, x.cast_unsigned())?;
    put_word(out, y.cast_unsigned())
}

/// The offsets, where there are some.
pub fn put_offsets(out: &mut Vec<u8>, offsets: Option<(i32, i32)>) -> Result<(), AllocError>
    ensures ok { OnOk result (out.new.items ≡ out.old.items ++ list_bytes
        (if_there OFFSETS offset_words offsets)) }
    ensures front { BeginsWith out.new.items out.old.items }
{
    match offsets {
        Some((x, y)) => put_point(out, x, y),
        None => Ok(()),
    }
}

/// A mark that has no bytes, where it is set.
pub fn put_mark(out: &mut Vec<u8>, kind: u32, is_set: bool) -> Result<(), AllocError>
    ensures ok { OnOk result (out.new.items ≡ out.old.items ++ list_bytes (if_so kind is_set)) }
    ensures front { BeginsWith out.new.items out.old.items }
{
    if is_set {
        return put_head(out, kind, 0);
    }
    Ok(())
}
