//! Signed words of a file.
use xl_fields::{Kind, ReadRefused, i32_at};

/// The greatest number, the least one, and -5, behind one byte.
const WORDS: [u8; 13] = [9, 127, 255, 255, 255, 128, 0, 0, 0, 255, 255, 255, 251];

// The word at an offset, or where it is cut off.
fn word(at: usize) -> Result<i32, Option<u64>> {
    match i32_at(&WORDS, at) {
        Ok(word) => Ok(word),
        Err(refused) => Err(cut_off_at(refused)),
    }
}

fn cut_off_at(refused: ReadRefused) -> Option<u64> {
    if refused.kind == Kind::Truncated {
        Some(refused.at)
    } else {
        None
    }
}

/// An offset, and what is read there.
const READ: [(usize, Result<i32, Option<u64>>); 6] = [
    (1, Ok(2147483647)),
    (5, Ok(-2147483648)),
    (9, Ok(-5)),
    // cut off
    (10, Err(Some(10))),
    (13, Err(Some(13))),
    (usize::MAX, Err(Some(u64::MAX))),
];

// The first offset at which something else is read.
fn first_read_otherwise() -> Option<usize> {
    for row in &READ {
        if word(row.0) != row.1 {
            return Some(row.0);
        }
    }
    None
}

#[test]
fn signed_words_are_read(rt: HostRuntime) {
    assert_eq!(rt; first_read_otherwise(), None);
}
