ghost use Rattle.std.specs.Prelude.{◌≡◌, ◌+◌, ◌*◌, ◌≤◌, length, take, drop, IfOk};
ghost use Rattle.spec_props.specs.Meaning.{is_set, payload_word, colour_number, colours_in, path_words};
ghost use Rattle.xl_props.specs.Props.{property, opacity_in, mode_in, offsets_in};
ghost use Rattle.spec_document.specs.declared.TheConstants.{MAX_COLOURS, MAX_PAYLOAD};

use crate::colour_list::ColourMap;
use crate::path_list::Path;
use crate::words::{int, word};
use spec_document::Mode;
use std::alloc::{AllocError, Global};
use xl_blend::mode_of;

/// The opacity in a payload: its word, and 255 where that is greater.
pub fn opacity_of(payload: &[u8]) -> u8
    requires { 4 ≤ length payload.now }
    ensures { result ≡ opacity_in (property 0 0 payload.now) }
{
    word(payload, 0).min(255) as u8
}

/// The mode of the code in a payload, and the normal one where the code stands for none.
pub fn mode_in_payload(payload: &[u8]) -> Mode
    requires { 4 ≤ length payload.now }
    ensures { result ≡ mode_in (property 0 0 payload.now) }
{
    mode_of(word(payload, 0)).unwrap_or(Mode::Normal)
}

/// The flag in a payload: set where its word is not 0.
pub fn flag_of(payload: &[u8]) -> bool
    requires { 4 ≤ length payload.now }
    ensures { result ≡ is_set (property 0 0 payload.now) }
{
    word(payload, 0) != 0
}

/// The offsets in a payload: x and y.
pub fn offsets_of(payload: &[u8]) -> (i32, i32)
    requires { 8 ≤ length payload.now }
    ensures { result ≡ offsets_in (property 0 0 payload.now) }
{
    (int(payload, 0), int(payload, 1))
}

/// The colour number `i` of a colour map, behind the word that counts them.
fn colour(payload: &[u8], i: usize) -> [u8; 3]
    requires number { i ≤ MAX_COLOURS }
    requires inside { 4 + 3 * i + 3 ≤ length payload.now }
    ensures { result ≡ colour_number (property 0 0 payload.now) i }
{
    let start = 4 + 3 * i;
    let part = &payload[start..start + 3];
    [part[0], part[1], part[2]]
}

/// The colours in a payload: a word that counts them, and three bytes for each.
#[tactic(auto, using(crate::proofs::Counted::counted_more))]
pub fn colours_of(alloc: Global, payload: &[u8]) -> Result<ColourMap, AllocError>
    requires count { 4 ≤ length payload.now }
    requires few { payload_word (property 0 0 payload.now) 0 ≤ MAX_COLOURS }
    requires all { length payload.now ≡ 4 + 3 * payload_word (property 0 0 payload.now) 0 }
    ensures { IfOk result (λ colours. colours ≡ colours_in (property 0 0 payload.now)) }
{
    let mut colours = ColourMap::new(alloc);
    for i in 0..word(payload, 0) as usize {
        colours.push(colour(payload, i))?;
    }
    Ok(colours)
}

/// The item path in a payload: a word for each place.
#[tactic(auto, using(crate::proofs::Counted::counted_more))]
pub fn path_of(alloc: Global, payload: &[u8]) -> Result<Path, AllocError>
    requires { length payload.now ≤ MAX_PAYLOAD }
    ensures { IfOk result (λ path. path ≡ path_words (property 0 0 payload.now)) }
{
    let mut path = Path::new(alloc);
    for i in 0..payload.len() / 4 {
        path.push(word(payload, i))?;
    }
    Ok(path)
}
