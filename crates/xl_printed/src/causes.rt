ghost use Rattle.std.specs.Prelude.{◌≡◌, ℕ, ◌^◌, ◌+◌, ◌*◌, ◌-◌, ◌<◌, ◌≤◌, List, option_copied, IfSome};
ghost use Rattle.spec_script.specs.Words as grammar;
ghost use Rattle.spec_audit.specs.Reading as reading;
ghost use Rattle.xl_words.specs.Numbers.{below};
ghost use Rattle.xl_words.specs.Words.{words_left};
ghost use Rattle.xl_printed.specs.Causes.{only_number, cause_of, cause_if_any};

use xl_calls::EditRefused;
use xl_words::{no_words, number, one_word};

/// The refusals by their numbers.
#[derive(Clone, Copy)]
pub enum Code {
    NoNode,
    IsGroup,
    NotGroup,
    Inside,
    BadPlace,
    OutsideLayer,
    OtherType,
    NoMask,
    HasMask,
    NoChannel,
    NotIndexed,
    ModeRefused,
    TooMany,
    TooLarge,
    OffsetRange,
    BadName,
    GroupInIndexed,
    Locked,
    TooDeep,
}

// Each refusal by its number.
const CODES: [(u32, Code); 19] = [
    (1, Code::NoNode),
    (2, Code::IsGroup),
    (3, Code::NotGroup),
    (4, Code::Inside),
    (5, Code::BadPlace),
    (6, Code::OutsideLayer),
    (7, Code::OtherType),
    (8, Code::NoMask),
    (9, Code::HasMask),
    (10, Code::NoChannel),
    (11, Code::NotIndexed),
    (12, Code::ModeRefused),
    (13, Code::TooMany),
    (14, Code::TooLarge),
    (15, Code::OffsetRange),
    (16, Code::BadName),
    (17, Code::GroupInIndexed),
    (18, Code::Locked),
    (19, Code::TooDeep),
];

// A number of pixels is below this.
const AREA_LIMIT: u128 = 1 << 64;

// The refusal of this number, if there is one.
fn code_of(number: u32) -> Option<Code>
    ensures { (words : List (List ℕ)) → cause_if_any result words ≡ reading.read_cause
        reading.causes number words }
{
    for (code, refusal) in &CODES {
        if number == *code {
            return Some(*refusal);
        }
    }
    None
}

// The number of these digits, if it is below `AREA_LIMIT`.
fn digits(word: &[u8]) -> Option<u64>
    ensures { result ≡ below (2 ^ 64) (grammar.digits_from 0 word.now) }
{
    let mut value: u128 = 0;
    for b in word {
        if !b.is_ascii_digit() {
            return None;
        }
        value = 10 * value + u128::from(*b - b'0');
        if value >= AREA_LIMIT {
            return None;
        }
    }
    Some(value as u64)
}

// A number of pixels, without a leading zero.
fn area(word: &[u8]) -> Option<u64>
    ensures { result ≡ grammar.number_below (2 ^ 64) word.now }
{
    if word.is_empty() || (word.len() > 1 && word[0] == b'0') {
        return None;
    }
    digits(word)
}

// The number that is the only word.
fn value(words: Option<&[u8]>) -> Option<u32>
    ensures { result ≡ only_number (2 ^ 32) (words_left (option_copied words.entry)) }
{
    number(one_word(words)?)
}

// The number of pixels that is the only word.
fn area_value(words: Option<&[u8]>) -> Option<u64>
    ensures { result ≡ only_number (2 ^ 64) (words_left (option_copied words.entry)) }
{
    area(one_word(words)?)
}

// A refusal without a value, where no word is left.
fn alone(cause: EditRefused, words: Option<&[u8]>) -> Option<EditRefused>
    ensures { result ≡ reading.without_value cause (words_left (option_copied words.entry)) }
{
    if no_words(words) { Some(cause) } else { None }
}

// The refusal, with its value among the words that are left.
fn cause(code: Code, words: Option<&[u8]>) -> Option<EditRefused>
    ensures { result ≡ cause_of code (words_left (option_copied words.entry)) }
{
    match code {
        Code::NoNode => Some(EditRefused::NoNode(value(words)?)),
        Code::IsGroup => Some(EditRefused::IsGroup(value(words)?)),
        Code::NotGroup => Some(EditRefused::NotGroup(value(words)?)),
        Code::Inside => Some(EditRefused::Inside(value(words)?)),
        Code::BadPlace => Some(EditRefused::BadPlace(value(words)?)),
        Code::OutsideLayer => alone(EditRefused::OutsideLayer, words),
        Code::OtherType => alone(EditRefused::OtherType, words),
        Code::NoMask => alone(EditRefused::NoMask, words),
        Code::HasMask => alone(EditRefused::HasMask, words),
        Code::NoChannel => Some(EditRefused::NoChannel(value(words)?)),
        Code::NotIndexed => alone(EditRefused::NotIndexed, words),
        Code::ModeRefused => Some(EditRefused::ModeRefused(value(words)?)),
        Code::TooMany => Some(EditRefused::TooMany(value(words)?)),
        Code::TooLarge => Some(EditRefused::TooLarge(area_value(words)?)),
        Code::OffsetRange => alone(EditRefused::OffsetRange, words),
        Code::BadName => alone(EditRefused::BadName, words),
        Code::GroupInIndexed => alone(EditRefused::GroupInIndexed, words),
        Code::Locked => Some(EditRefused::Locked(value(words)?)),
        Code::TooDeep => Some(EditRefused::TooDeep(value(words)?)),
    }
}

/// The refusal of this number, with the value behind it where it has one.
pub fn read_cause(number: u32, words: Option<&[u8]>) -> Option<EditRefused>
    ensures { result ≡ reading.read_cause reading.causes number
        (words_left (option_copied words.entry)) }
{
    cause(code_of(number)?, words)
}
