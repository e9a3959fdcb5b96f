//! The two lines that a talk has beside those of a script.
ghost use Rattle.std.specs.Prelude.{◌≡◌, option_map, option_copied};
ghost use Rattle.spec_script.specs.Words.{words_of, none, if_holds};
ghost use Rattle.spec_serve.specs.Windows as grammar;
ghost use Rattle.xl_told.specs.Requests.{request_is, window_is};
ghost use Rattle.xl_words.specs.Words.{words_left};

use spec_document::TileAt;
use spec_window::MAX_WINDOW;
use xl_words::{
    Operands, first_word, is_word, next_word, no_words, number, number_below, three_words,
};

// How many sessions there are.
const SESSIONS: u64 = 8;

/// The tiles from one on to its right and below, of the picture of a stack.
#[derive(Clone, Copy, Debug)]
pub struct Window {
    pub node: u32,
    pub at: TileAt,
    pub cols: u32,
    pub rows: u32,
}

/// What a line asks for that is no line of a script.
#[derive(Clone, Copy, Debug)]
pub enum Request {
    Look(u8, Window),
    Wait(u8),
}

// A side of a window, in tiles.
fn window_side(word: &[u8]) -> Option<u32>
    ensures value { result ≡ grammar.window_side word.now }
{
    let n = number_below(MAX_WINDOW as u64 + 1, word)?;
    if n >= 1 { Some(n) } else { None }
}

fn window_from(stack: &[u8], col: &[u8], row: &[u8], cols: u32, rows: u32) -> Option<Window>
    ensures { option_map window_is result ≡ grammar.window_from stack.now col.now row.now cols rows }
{
    let node = number(stack)?;
    let col = number(col)?;
    let row = number(row)?;
    Some(Window {
        node,
        at: TileAt { col, row },
        cols,
        rows,
    })
}

// The window that three words or five name.
fn window_of(keyword: &[u8], words: Option<&[u8]>) -> Option<Window>
    ensures { option_map window_is result ≡ grammar.window_of (words_left (option_copied words.entry)) }
{
    if let Some((stack, col, row)) = three_words(words) {
        return window_from(stack, col, row, 1, 1);
    }
    let Ok((stack, col, row, cols, rows)) = (Operands { keyword, words }).five() else {
        return None;
    };
    let cols = window_side(cols.text)?;
    let rows = window_side(rows.text)?;
    window_from(stack.text, col.text, row.text, cols, rows)
}

// The pixels of the window that the words name.
fn look_of(session: u8, keyword: &[u8], words: Option<&[u8]>) -> Option<Request>
    ensures { option_map request_is result ≡ option_map (grammar.looks session)
        (grammar.window_of (words_left (option_copied words.entry))) }
{
    Some(Request::Look(session, window_of(keyword, words)?))
}

// A wait, which has no words.
fn wait_of(session: u8, words: Option<&[u8]>) -> Option<Request>
    ensures { option_map request_is result ≡ if_holds (none (words_left (option_copied words.entry)))
        (grammar.waits session) }
{
    if no_words(words) {
        Some(Request::Wait(session))
    } else {
        None
    }
}

// What a keyword asks for with the words behind it.
fn request_by(keyword: &[u8], words: Option<&[u8]>, session: u8) -> Option<Request>
    ensures { option_map request_is result ≡ grammar.request_by keyword.now
        (words_left (option_copied words.entry)) session }
{
    if is_word(keyword, b"pixels") {
        return look_of(session, keyword, words);
    }
    if is_word(keyword, b"wait") {
        return wait_of(session, words);
    }
    None
}

/// What a line asks for, where it is no line of a script.
pub fn request_of(line: &[u8]) -> Option<Request>
    ensures { option_map request_is result ≡ grammar.request_of (words_of line.now) }
{
    let (first, rest) = first_word(line);
    let (keyword, words) = next_word(rest)?;
    let session = number_below(SESSIONS, first)? as u8;
    request_by(keyword, words, session)
}
