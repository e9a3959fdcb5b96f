ghost use Rattle.std.specs.Prelude.{◌≡◌, ℕ, List, length, nat_lt, take};
ghost use Rattle.xl_words.specs.Causes.{Shows};

// How many bytes of a word are kept.
const MOST: usize = 40;

/// The front of a word, for people to be shown: as much of it as is kept without memory.
#[derive(Clone, Copy, Debug, PartialEq, Eq)]
pub struct WordFront {
    bytes: [u8; MOST],
    // How long the word is.
    len: usize,
}

impl WordFront {
    /// The front of this word.
    pub fn of(word: &[u8]) -> WordFront
        ensures { Shows result word.now }
    {
        let len = word.len();
        let kept = len.min(MOST);
        let mut bytes = [0; MOST];
        bytes[..kept].copy_from_slice(&word[..kept]);
        WordFront { bytes, len }
    }

    /// The bytes that are kept: those that the word begins with, at most 40.
    pub fn as_bytes(&self) -> &[u8]
        ensures { (word : List ℕ) → Shows self.now word → result.now ≡ take 40 word }
    {
        &self.bytes[..self.len.min(MOST)]
    }

    /// Whether there is more of the word.
    pub fn is_cut(&self) -> bool
        ensures { (word : List ℕ) → Shows self.now word → result ≡ nat_lt 40 (length word) }
    {
        self.len > MOST
    }
}
