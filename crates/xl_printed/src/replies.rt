ghost use Rattle.std.specs.Prelude.{◌≡◌, option_copied, IfSome};
ghost use Rattle.std.specs.List.{list_all};
ghost use Rattle.spec_history.specs.Machine as machine;
ghost use Rattle.spec_script.specs.Words as grammar;
ghost use Rattle.spec_audit.specs.Reading as reading;
ghost use Rattle.spec_audit.specs.Output.{is_digest, is_digest_digit};
ghost use Rattle.xl_calls.specs.Replies.{reply_of};
ghost use Rattle.xl_printed.specs.Phrases.{rest_of};

use crate::causes::read_cause;
use crate::pieces::strip;
use crate::printed::{Printed, plain};
use xl_calls::Reply;
use xl_words::{first_word, is_word, next_word, number, three_words, two_words};

/// The words that a reply begins with.
#[derive(Clone, Copy)]
pub enum Phrase {
    Changed,
    Refused,
    Moved,
    NothingToUndo,
    NothingToRedo,
    NotTop,
    Tile,
    Stale,
    NoStack,
    OutsideTile,
    Top,
    Saved,
    SaveFault,
}

// Each phrase by its words.
const PHRASES: [(&'static [u8], Phrase); 13] = [
    (b"changed ", Phrase::Changed),
    (b"refused ", Phrase::Refused),
    (b"moved ", Phrase::Moved),
    (b"nothing to undo", Phrase::NothingToUndo),
    (b"nothing to redo", Phrase::NothingToRedo),
    (b"not top ", Phrase::NotTop),
    (b"tile ", Phrase::Tile),
    (b"stale ", Phrase::Stale),
    (b"no stack ", Phrase::NoStack),
    (b"outside tile", Phrase::OutsideTile),
    (b"top ", Phrase::Top),
    (b"saved ", Phrase::Saved),
    (b"save fault ", Phrase::SaveFault),
];

// How many hexadecimal digits a digest has.
const DIGEST_LEN: usize = 64;

fn read_changed(rest: &[u8]) -> Option<Printed<'static>>
    ensures { result ≡ reading.changed_rest rest.now }
{
    let (version, group, next) = three_words(Some(rest))?;
    let version = number(version)?;
    let group = number(group)?;
    let next = number(next)?;
    Some(plain(Reply::Changed {
        version,
        group,
        next,
    }))
}

// A number, or the word none.
fn number_or_word(word: &[u8]) -> Option<Option<u32>>
    ensures { result ≡ reading.number_or_word word.now }
{
    if is_word(word, b"none") {
        Some(None)
    } else {
        Some(Some(number(word)?))
    }
}

fn read_stale(rest: &[u8]) -> Option<Printed<'static>>
    ensures { result ≡ reading.optional_rest machine.stale rest.now }
{
    let (have, seen) = two_words(Some(rest))?;
    let have = number_or_word(have)?;
    let seen = number(seen)?;
    Some(plain(Reply::Stale { have, seen }))
}

fn read_top(rest: &[u8]) -> Option<Printed<'static>>
    ensures { result ≡ reading.optional_rest machine.top_is rest.now }
{
    let (group, version) = two_words(Some(rest))?;
    let group = number_or_word(group)?;
    let version = number(version)?;
    Some(plain(Reply::Top { group, version }))
}

fn is_digest_digit(b: u8) -> bool
    ensures { result ≡ is_digest_digit b }
{
    matches!(b, b'0'..=b'9' | b'a'..=b'f')
}

fn are_digits(word: &[u8]) -> bool
    ensures { result ≡ list_all is_digest_digit word.now }
{
    word.iter().all(|b| is_digest_digit(*b))
}

fn is_digest(word: &[u8]) -> bool
    ensures { result ≡ is_digest word.now }
{
    word.len() == DIGEST_LEN && are_digits(word)
}

fn read_tile(rest: &[u8]) -> Option<Printed<'_>>
    ensures { result ≡ reading.tile_rest rest.now }
{
    let (version, digest) = two_words(Some(rest))?;
    let version = number(version)?;
    if !is_digest(digest) {
        return None;
    }
    Some(Printed {
        reply: Reply::Tile { version },
        digest,
    })
}

// A reply behind whose phrase nothing stands.
fn nothing_more(reply: Reply, rest: &[u8]) -> Option<Printed<'static>>
    ensures { result ≡ reading.nothing_more (reply_of reply) rest.now }
{
    if rest.is_empty() {
        Some(plain(reply))
    } else {
        None
    }
}

fn read_refused(rest: &[u8]) -> Option<Printed<'static>>
    ensures { result ≡ reading.refused_rest rest.now }
{
    let (index, words) = first_word(rest);
    let (code, words) = next_word(words)?;
    let index = number(index)?;
    let code = number(code)?;
    let cause = read_cause(code, words)?;
    Some(plain(Reply::Refused { index, cause }))
}

fn read_moved(rest: &[u8]) -> Option<Printed<'static>>
    ensures { result ≡ reading.one_number machine.moved rest.now }
{
    let now = number(rest)?;
    Some(plain(Reply::Moved { now }))
}

fn read_not_top(rest: &[u8]) -> Option<Printed<'static>>
    ensures { result ≡ reading.one_number machine.not_top rest.now }
{
    let top = number(rest)?;
    Some(plain(Reply::NotTop { top }))
}

fn read_no_stack(rest: &[u8]) -> Option<Printed<'static>>
    ensures { result ≡ reading.one_number machine.no_stack rest.now }
{
    let node = number(rest)?;
    Some(plain(Reply::NoStack { node }))
}

fn read_saved(rest: &[u8]) -> Option<Printed<'static>>
    ensures { result ≡ reading.one_number machine.saved rest.now }
{
    let version = number(rest)?;
    Some(plain(Reply::Saved { version }))
}

fn read_save_fault(rest: &[u8]) -> Option<Printed<'static>>
    ensures { result ≡ reading.one_number machine.save_fault rest.now }
{
    let version = number(rest)?;
    Some(plain(Reply::SaveFault { version }))
}

// The reply, as it is behind its phrase.
fn read_rest(phrase: Phrase, rest: &[u8]) -> Option<Printed<'_>>
    ensures { result ≡ rest_of phrase rest.now }
{
    match phrase {
        Phrase::Changed => read_changed(rest),
        Phrase::Refused => read_refused(rest),
        Phrase::Moved => read_moved(rest),
        Phrase::NothingToUndo => nothing_more(Reply::NothingToUndo, rest),
        Phrase::NothingToRedo => nothing_more(Reply::NothingToRedo, rest),
        Phrase::NotTop => read_not_top(rest),
        Phrase::Tile => read_tile(rest),
        Phrase::Stale => read_stale(rest),
        Phrase::NoStack => read_no_stack(rest),
        Phrase::OutsideTile => nothing_more(Reply::OutsideTile, rest),
        Phrase::Top => read_top(rest),
        Phrase::Saved => read_saved(rest),
        Phrase::SaveFault => read_save_fault(rest),
    }
}

/// The reply that is printed so, if there is one.
pub fn read_reply(text: &[u8]) -> Option<Printed<'_>>
    ensures { result ≡ reading.read_reply text.now }
{
    for (words, phrase) in &PHRASES {
        if let Some(rest) = strip(words, text) {
            return read_rest(*phrase, rest);
        }
    }
    None
}
