//! Words of the caller's, as a line of a terminal may show them.

use std::slice::EscapeAscii;

/// A word whose bytes other than printable ASCII are escaped, as those of scripts are: it brings no codes for a
/// terminal and no newline.
pub fn shown(word: &str) -> EscapeAscii<'_> {
    word.as_bytes().escape_ascii()
}
