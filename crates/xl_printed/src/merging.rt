ghost use Rattle.std.specs.Prelude.{◌≡◌, ◌<◌, ◌≤◌, [], ◌∷◌, ◌++◌, OnOk, OnErr, length, map, slice_index_or, slice_get, Some};
ghost use Rattle.std.specs.Str.{bytes_eq};
ghost use Rattle.spec_script.specs.Words.{if_holds};
ghost use Rattle.xl_printed.specs.Merging as merging;

use std::alloc::{AllocError, Global};
use std::marker::Model;
use xl_script::{OrderWord, SESSIONS};

/// Which calls of a session are saves.
#[derive(Drop)]
pub struct Saves {
    items: Vec<bool>,
}

impl Model for Saves {
    ghost use Rattle.std.specs.Prelude.{Bool, List};

    ghost Value = { List Bool };

    ghost view = { λ s. s.items.items };
}

// How many calls of each session there were so far, and the save that is out.
#[derive(Drop)]
struct Merging {
    nexts: [u64; 8],
    out: Option<OrderWord>,
}

impl Model for Merging {
    ghost use Rattle.std.specs.Prelude.{◌≡◌, length};
    ghost use Rattle.xl_printed.specs.Merging as merging;

    ghost Value = { merging.Merging };

    ghost view = { λ m. record { nexts = m.nexts; out = m.out } };

    ghost invariant = { λ m. length m.nexts ≡ 8 };
}

// Whether a word names the save that is out.
fn is_start(out: Option<OrderWord>, word: OrderWord) -> bool
    ensures { result ≡ merging.is_start out word }
{
    match out {
        Some(start) => start.session == word.session && start.index == word.index,
        None => false,
    }
}

// The save that is out after a call that is a save or not. None where two saves would cross.
fn out_with(out: Option<OrderWord>, word: OrderWord, save: bool) -> Option<Option<OrderWord>>
    ensures { result ≡ merging.out_with out word save }
{
    if !save {
        return Some(out);
    }
    match out {
        Some(_) => None,
        None => Some(Some(word)),
    }
}

impl Saves {
    /// No calls.
    pub fn new(alloc: Global) -> Self
        ensures { result ≡ [] }
    {
        Saves {
            items: Vec::new(alloc),
        }
    }

    /// Appends whether the next call is a save.
    pub fn push(&mut self, item: bool) -> Result<(), AllocError>
        ensures ok { OnOk result (self.new ≡ self.old ++ item ∷ []) }
        ensures err { OnErr result (self.new ≡ self.old) }
    {
        self.items.push(item)?;
        Ok(())
    }

    fn get(&self, index: u32) -> Option<bool>
        ensures { result ≡ slice_get self.now index }
    {
        self.items.get(index as usize).copied()
    }

    /// How many calls there are.
    pub fn len(&self) -> usize
        ensures { result ≡ length self.now }
    {
        self.items.len()
    }
}

impl Merging {
    fn new() -> Merging
        ensures { result ≡ merging.before_all }
    {
        Merging {
            nexts: [0; 8],
            out: None,
        }
    }

    // Ends the save that is out. False where the word is not its end.
    fn take_end(&mut self, word: OrderWord) -> bool
        ensures { if_holds result self.new ≡ merging.take_end self.old word }
    {
        if is_start(self.out, word) {
            self.out = None;
            true
        } else {
            false
        }
    }

    // Counts the next call of a session. False where the word names another call, or a save while one is out.
    fn take_call(&mut self, saves: &[Saves], word: OrderWord) -> bool
        requires eight { length saves.now ≡ 8 }
        requires session { word.session < 8 }
        ensures { if_holds result self.new ≡ merging.take_call saves.now self.old word }
    {
        let session = word.session as usize;
        if self.nexts[session] != u64::from(word.index) {
            return false;
        }
        let Some(save) = saves[session].get(word.index) else {
            return false;
        };
        let Some(out) = out_with(self.out, word, save) else {
            return false;
        };
        self.nexts[session] = u64::from(word.index) + 1;
        self.out = out;
        true
    }

    // Takes a word. False where it may not stand here.
    fn take(&mut self, saves: &[Saves], word: OrderWord) -> bool
        requires { length saves.now ≡ 8 }
        ensures { if_holds result self.new ≡ merging.take_word saves.now self.old word }
    {
        if word.session >= SESSIONS {
            return false;
        }
        if word.end {
            self.take_end(word)
        } else {
            self.take_call(saves, word)
        }
    }

    // Whether each session has made all of its calls.
    fn has_all(&self, saves: &[Saves]) -> bool
        requires { length saves.now ≡ 8 }
        ensures { result ≡ bytes_eq self.now.nexts (map length saves.now) }
    {
        for session in 0..8 {
            if self.nexts[session] as usize != saves[session].len() {
                return false;
            }
        }
        true
    }

    // Whether all calls were made, and no save is out.
    fn is_whole(&self, saves: &[Saves]) -> bool
        requires { length saves.now ≡ 8 }
        ensures { result ≡ merging.is_whole saves.now (Some self.now) }
    {
        self.out.is_none() && self.has_all(saves)
    }
}

/// Whether the words are a merge of the sessions' calls: each call stands once, those of a session in their order, and
/// each save ends before the next one starts.
pub fn is_merge(saves: &[Saves], order: &[OrderWord]) -> bool
    requires { length saves.now ≡ 8 }
    ensures { result ≡ merging.merges saves.now order.now }
{
    let mut merging = Merging::new();
    for word in order {
        if !merging.take(saves, *word) {
            return false;
        }
    }
    merging.is_whole(saves)
}
