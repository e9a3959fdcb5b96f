ghost use Rattle.std.specs.Prelude.{◌≡◌, Some, None, MatchOption, IfOk};
ghost use Rattle.spec_script.specs.Words.{words_of};
ghost use Rattle.spec_audit.specs.Reading as reading;
ghost use Rattle.xl_printed.specs.FirstLine.{words_behind};

use crate::lines::read_place;
use crate::pieces::{cut_at, strip};
use std::alloc::{AllocError, Global};
use xl_script::OrderWord;
use xl_words::split_once;

// A word without the mark of an end, and whether it has one.
fn cut_mark(word: &[u8]) -> (&[u8], bool)
    ensures { reading.unmarked word.now ≡ (result.0.now, result.1) }
{
    let len = word.len();
    if len > 0 && word[len - 1] == b'e' {
        (&word[..len - 1], true)
    } else {
        (word, false)
    }
}

fn read_word(word: &[u8]) -> Option<OrderWord>
    ensures { result ≡ reading.read_word word.now }
{
    let (place, end) = cut_mark(word);
    let (session, index) = read_place(place)?;
    Some(OrderWord {
        session,
        index,
        end,
    })
}

// The words of a text, each behind a space but the first.
fn read_words(alloc: Global, text: &[u8]) -> Result<Option<Vec<OrderWord>>, AllocError>
    ensures { IfOk result (λ o. MatchOption o
        (reading.read_words (words_of text.now) ≡ None)
        (λ ws. reading.read_words (words_of text.now) ≡ Some ws.items)) }
{
    let mut words = Vec::new(alloc);
    let mut rest = text;
    while let Some((word, after)) = split_once(b' ', rest) {
        let Some(word) = read_word(word) else {
            return Ok(None);
        };
        words.push(word)?;
        rest = after;
    }
    let Some(word) = read_word(rest) else {
        return Ok(None);
    };
    words.push(word)?;
    Ok(Some(words))
}

// The words behind a space, or none where nothing is there.
fn words_after(alloc: Global, text: &[u8]) -> Result<Option<Vec<OrderWord>>, AllocError>
    ensures { IfOk result (λ o. MatchOption o
        (reading.after_space (words_of text.now) ≡ None)
        (λ ws. reading.after_space (words_of text.now) ≡ Some ws.items)) }
{
    match split_once(b' ', text) {
        Some(([], words)) => read_words(alloc, words),
        Some(_) => Ok(None),
        None => {
            if text.is_empty() {
                Ok(Some(Vec::new(alloc)))
            } else {
                Ok(None)
            }
        }
    }
}

// What is behind the first word of the order line, where the text is just one line that begins so.
fn order_words(text: &[u8]) -> Option<&[u8]>
    ensures { MatchOption result
        (words_behind text.now ≡ None)
        (λ r. words_behind text.now ≡ Some r.now) }
{
    let (line, after) = cut_at(b'\n', text)?;
    let rest = strip(b"order", line)?;
    if after.is_empty() { Some(rest) } else { None }
}

/// The words of a text that is the order line and nothing more. None where it is not.
pub fn read_order(alloc: Global, text: &[u8]) -> Result<Option<Vec<OrderWord>>, AllocError>
    ensures { IfOk result (λ o. MatchOption o
        (reading.read_order text.now ≡ None)
        (λ ws. reading.read_order text.now ≡ Some ws.items)) }
{
    match order_words(text) {
        Some(rest) => words_after(alloc, rest),
        None => Ok(None),
    }
}
