ghost use Rattle.std.specs.Prelude.{◌≡◌, None, Some, ◌∷◌, MatchOption, option_copied};
ghost use Rattle.spec_script.specs.Words.{words_of, none, one, two, three, five, six, eight};
ghost use Rattle.spec_script.specs.Commands as grammar;
ghost use Rattle.xl_words.specs.Words.{words_left, next};

use crate::splitting::split_once;

const SPACE: u8 = b' ';

/// Whether a word is this text.
pub fn is_word(word: &[u8], text: &[u8]) -> bool
    ensures { result ≡ grammar.is_word word.now text.now }
{
    word == text
}

/// The first word of a line, and the rest of the line behind the space. None where no word follows.
pub fn first_word(line: &[u8]) -> (&[u8], Option<&[u8]>)
    ensures { words_of line.now ≡ result.0.now ∷ words_left (option_copied result.1) }
{
    match split_once(SPACE, line) {
        Some((word, rest)) => (word, Some(rest)),
        None => (line, None),
    }
}

/// The next word, and what is left behind it.
pub fn next_word(words: Option<&[u8]>) -> Option<(&[u8], Option<&[u8]>)>
    ensures { MatchOption result (next (words_left (option_copied words.entry)) ≡ None)
        (λ t. next (words_left (option_copied words.entry))
        ≡ Some (t.0.now, words_left (option_copied t.1))) }
{
    Some(first_word(words?))
}

/// Whether there is no word.
pub fn no_words(words: Option<&[u8]>) -> bool
    ensures { result ≡ none (words_left (option_copied words.entry)) }
{
    match words {
        None => true,
        Some(_) => false,
    }
}

/// The word, if it is the only one.
pub fn one_word(words: Option<&[u8]>) -> Option<&[u8]>
    ensures { MatchOption result
        (one (words_left (option_copied words.entry)) ≡ None)
        (λ t. one (words_left (option_copied words.entry)) ≡ Some t.now) }
{
    let (a, words) = next_word(words)?;
    match words {
        None => Some(a),
        Some(_) => None,
    }
}

/// The words, if they are two.
pub fn two_words(words: Option<&[u8]>) -> Option<(&[u8], &[u8])>
    ensures { MatchOption result
        (two (words_left (option_copied words.entry)) ≡ None)
        (λ t. two (words_left (option_copied words.entry)) ≡ Some (t.0.now, t.1.now)) }
{
    let (a, words) = next_word(words)?;
    let (b, words) = next_word(words)?;
    match words {
        None => Some((a, b)),
        Some(_) => None,
    }
}

/// The words, if they are three.
pub fn three_words(words: Option<&[u8]>) -> Option<(&[u8], &[u8], &[u8])>
    ensures { MatchOption result
        (three (words_left (option_copied words.entry)) ≡ None)
        (λ t. three (words_left (option_copied words.entry)) ≡ Some (t.0.now, t.1.now, t.2.now)) }
{
    let (a, words) = next_word(words)?;
    let (b, c) = two_words(words)?;
    Some((a, b, c))
}

/// The words, if they are five.
pub fn five_words(words: Option<&[u8]>) -> Option<(&[u8], &[u8], &[u8], &[u8], &[u8])>
    ensures { MatchOption result (five (words_left (option_copied words.entry)) ≡ None)
        (λ t. five (words_left (option_copied words.entry))
        ≡ Some (t.0.now, t.1.now, t.2.now, t.3.now, t.4.now)) }
{
    let (a, words) = next_word(words)?;
    let (b, words) = next_word(words)?;
    let (c, d, e) = three_words(words)?;
    Some((a, b, c, d, e))
}

/// The words, if they are six.
pub fn six_words(words: Option<&[u8]>) -> Option<(&[u8], &[u8], &[u8], &[u8], &[u8], &[u8])>
    ensures { MatchOption result (six (words_left (option_copied words.entry)) ≡ None)
        (λ t. six (words_left (option_copied words.entry))
        ≡ Some (t.0.now, t.1.now, t.2.now, t.3.now, t.4.now, t.5.now)) }
{
    let (a, words) = next_word(words)?;
    let (b, words) = next_word(words)?;
    let (c, words) = next_word(words)?;
    let (d, e, f) = three_words(words)?;
    Some((a, b, c, d, e, f))
}

/// The words, if they are eight.
pub fn eight_words(
    words: Option<&[u8]>,
) -> Option<(&[u8], &[u8], &[u8], &[u8], &[u8], &[u8], &[u8], &[u8])>
    ensures { MatchOption result
        (eight (words_left (option_copied words.entry)) ≡ None)
        (λ t. eight (words_left (option_copied words.entry))
        ≡ Some (t.0.now, t.1.now, t.2.now, t.3.now, t.4.now, t.5.now, t.6.now, t.7.now)) }
{
    let (a, words) = next_word(words)?;
    let (b, words) = next_word(words)?;
    let (c, d, e, f, g, h) = six_words(words)?;
    Some((a, b, c, d, e, f, g, h))
}
