ghost use Rattle.std.specs.Prelude.{◌≡◌, ◌<◌, ◌≤◌, ◌^◌, IfSome};
ghost use Rattle.spec_script.specs.Words as grammar;
ghost use Rattle.xl_words.specs.Numbers.{below, below_zero};

use spec_document::MAX_SIDE;

// Numbers of 32 bits, and places and sides of rectangles, are below these.
const WORD_LIMIT: u64 = 1 << 32;

const COORDINATE_LIMIT: u64 = 1 << 20;

const BYTE_LIMIT: u64 = 1 << 8;

const SIDE_LIMIT: u64 = MAX_SIDE as u64 + 1;

const KIND_LIMIT: u64 = 6;

const FLAG_LIMIT: u64 = 2;

// Signed numbers are below these; behind a minus one more is there.
const POSITIVE_LIMIT: u64 = 1 << 31;

const NEGATIVE_LIMIT: u64 = (1 << 31) + 1;

// The number of these digits, if it is below the limit.
fn digits_below(limit: u64, word: &[u8]) -> Option<u32>
    requires some { 0 < limit }
    requires fits { limit ≤ 2 ^ 32 }
    ensures { result ≡ below limit (grammar.digits_from 0 word.now) }
{
    let mut value: u64 = 0;
    for b in word {
        if !b.is_ascii_digit() {
            return None;
        }
        value = 10 * value + u64::from(*b - b'0');
        if value >= limit {
            return None;
        }
    }
    Some(value as u32)
}

/// A decimal number below the limit, without a leading zero.
pub fn number_below(limit: u64, word: &[u8]) -> Option<u32>
    requires some { 0 < limit }
    requires fits { limit ≤ 2 ^ 32 }
    ensures value { result ≡ grammar.number_below limit word.now }
    ensures below { IfSome result (λ n. n < limit) }
{
    if word.is_empty() || (word.len() > 1 && word[0] == b'0') {
        return None;
    }
    digits_below(limit, word)
}

/// A number of 32 bits.
pub fn number(word: &[u8]) -> Option<u32>
    ensures { result ≡ grammar.number word.now }
{
    number_below(WORD_LIMIT, word)
}

/// A number of 0 to 255.
pub fn byte(word: &[u8]) -> Option<u8>
    ensures { result ≡ grammar.number_below 256 word.now }
{
    Some(number_below(BYTE_LIMIT, word)? as u8)
}

/// A place or a side of a rectangle: a number below 2^20.
pub fn coordinate(word: &[u8]) -> Option<u32>
    ensures value { result ≡ grammar.coordinate word.now }
    ensures below { IfSome result (λ n. n < 2 ^ 20) }
{
    number_below(COORDINATE_LIMIT, word)
}

/// A side of a new layer, in pixels: a number of 1 to `MAX_SIDE`.
pub fn side(word: &[u8]) -> Option<u32>
    ensures { result ≡ grammar.side word.now }
{
    let n = number_below(SIDE_LIMIT, word)?;
    if n >= 1 { Some(n) } else { None }
}

/// The type of a layer: a number of 0 to 5.
pub fn layer_type(word: &[u8]) -> Option<u32>
    ensures { result ≡ grammar.number_below 6 word.now }
{
    number_below(KIND_LIMIT, word)
}

/// A flag: 0 or 1.
pub fn flag(word: &[u8]) -> Option<bool>
    ensures { result ≡ grammar.flag word.now }
{
    Some(number_below(FLAG_LIMIT, word)? == 1)
}

// The number behind a minus, which is not 0.
fn negative(digits: &[u8]) -> Option<i32>
    ensures { result ≡ below_zero digits.now }
{
    match number_below(NEGATIVE_LIMIT, digits)? {
        0 => None,
        n => Some((-i64::from(n)) as i32),
    }
}

/// A number of 32 bits with its sign.
pub fn signed_number(word: &[u8]) -> Option<i32>
    ensures { result ≡ grammar.signed_number word.now }
{
    match word {
        [b'-', digits @ ..] => negative(digits),
        _ => Some(number_below(POSITIVE_LIMIT, word)? as i32),
    }
}
