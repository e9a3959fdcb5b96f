ghost use Rattle.std.specs.Prelude.{◌≡◌, ◌<◌, ◌+◌, None, Some, IfOk, MatchResult, option_copied};
ghost use Rattle.spec_script.specs.Words as grammar;
ghost use Rattle.xl_words.specs.Causes.{Blames};
ghost use Rattle.xl_words.specs.Reads.{Reads, Holds};
ghost use Rattle.xl_words.specs.Words.{words_left};

use crate::cause::Cause;
use crate::operand::Operand;
use crate::word_front::WordFront;
use crate::words::{
    eight_words, five_words, no_words, one_word, six_words, three_words, two_words,
};

/// The words behind a keyword.
#[derive(Clone, Copy)]
pub struct Operands<'a> {
    pub keyword: &'a [u8],
    /// The rest of the line, where there is one.
    pub words: Option<&'a [u8]>,
}

/// Five words.
pub type Five<'a> = (
    Operand<'a>,
    Operand<'a>,
    Operand<'a>,
    Operand<'a>,
    Operand<'a>,
);

/// Six words.
pub type Six<'a> = (
    Operand<'a>,
    Operand<'a>,
    Operand<'a>,
    Operand<'a>,
    Operand<'a>,
    Operand<'a>,
);

/// Eight words.
pub type Eight<'a> = (
    Operand<'a>,
    Operand<'a>,
    Operand<'a>,
    Operand<'a>,
    Operand<'a>,
    Operand<'a>,
    Operand<'a>,
    Operand<'a>,
);

// How many words there are.
fn count_words(words: Option<&[u8]>) -> usize {
    match words {
        None => 0,
        Some(line) => 1 + line.iter().filter(|b| **b == b' ').count(),
    }
}

// A word with its place, where so many words behind the keyword stand before it.
fn at(before: u8, text: &[u8]) -> Operand<'_>
    requires { before < 8 }
    ensures text { result.text.now ≡ text.now }
    ensures place { result.place ≡ before + 3 }
{
    Operand {
        place: before + 3,
        text,
    }
}

impl<'a> Operands<'a> {
    // The cause that there are fewer than `least` words behind the keyword, or more than `most`.
    fn word_count_fault(self, least: u8, most: u8) -> Cause
        ensures { Blames result }
    {
        Cause::WordCount {
            keyword: WordFront::of(self.keyword),
            least,
            most,
            found: count_words(self.words),
        }
    }

    /// Refuses words behind the keyword.
    pub fn none(self) -> Result<(), Cause>
        ensures { Holds result (grammar.none (words_left (option_copied self.entry.words))) }
    {
        if no_words(self.words) {
            Ok(())
        } else {
            Err(self.word_count_fault(0, 0))
        }
    }

    /// The one word behind the keyword, or that there are more or fewer.
    pub fn one(self) -> Result<Operand<'a>, Cause>
        ensures words { MatchResult result
            (λ a. grammar.one (words_left (option_copied self.entry.words)) ≡ Some a.text.now)
            (λ cause. (grammar.one (words_left (option_copied self.entry.words)) ≡ None)
            × Blames cause) }
        ensures place { IfOk result (λ a. a.place ≡ 3) }
    {
        match one_word(self.words) {
            Some(a) => Ok(at(0, a)),
            None => Err(self.word_count_fault(1, 1)),
        }
    }

    /// The two words behind the keyword, or that there are more or fewer.
    pub fn two(self) -> Result<(Operand<'a>, Operand<'a>), Cause>
        ensures words { MatchResult result
            (λ t. grammar.two (words_left (option_copied self.entry.words))
            ≡ Some (t.0.text.now, t.1.text.now))
            (λ cause. (grammar.two (words_left (option_copied self.entry.words)) ≡ None)
            × Blames cause) }
        ensures places { IfOk result (λ t. (t.0.place ≡ 3) × (t.1.place ≡ 4)) }
    {
        match two_words(self.words) {
            Some((a, b)) => Ok((at(0, a), at(1, b))),
            None => Err(self.word_count_fault(2, 2)),
        }
    }

    /// The three words behind the keyword, or that there are more or fewer.
    pub fn three(self) -> Result<(Operand<'a>, Operand<'a>, Operand<'a>), Cause>
        ensures words { MatchResult result
            (λ t. grammar.three (words_left (option_copied self.entry.words))
            ≡ Some (t.0.text.now, t.1.text.now, t.2.text.now))
            (λ cause. (grammar.three (words_left (option_copied self.entry.words)) ≡ None)
            × Blames cause) }
        ensures places { IfOk result (λ t. (t.0.place ≡ 3) × (t.1.place ≡ 4) × (t.2.place ≡ 5)) }
    {
        match three_words(self.words) {
            Some((a, b, c)) => Ok((at(0, a), at(1, b), at(2, c))),
            None => Err(self.word_count_fault(3, 3)),
        }
    }

    /// The five words behind the keyword, or that there are more or fewer.
    pub fn five(self) -> Result<Five<'a>, Cause>
        ensures words { MatchResult result
            (λ t. grammar.five (words_left (option_copied self.entry.words))
            ≡ Some (t.0.text.now, t.1.text.now, t.2.text.now, t.3.text.now, t.4.text.now))
            (λ cause. (grammar.five (words_left (option_copied self.entry.words)) ≡ None)
            × Blames cause) }
        ensures places { IfOk result
            (λ t. (t.0.place ≡ 3) × (t.1.place ≡ 4) × (t.2.place ≡ 5) × (t.3.place ≡ 6)
            × (t.4.place ≡ 7)) }
    {
        match five_words(self.words) {
            Some((a, b, c, d, e)) => Ok((at(0, a), at(1, b), at(2, c), at(3, d), at(4, e))),
            None => Err(self.word_count_fault(5, 5)),
        }
    }

    /// The six words behind the keyword, or that there are more or fewer.
    pub fn six(self) -> Result<Six<'a>, Cause>
        ensures words { MatchResult result
            (λ t. grammar.six (words_left (option_copied self.entry.words))
            ≡ Some (
              t.0.text.now,
              t.1.text.now,
              t.2.text.now,
              t.3.text.now,
              t.4.text.now,
              t.5.text.now,
            ))
            (λ cause. (grammar.six (words_left (option_copied self.entry.words)) ≡ None)
            × Blames cause) }
        ensures places { IfOk result
            (λ t. (t.0.place ≡ 3) × (t.1.place ≡ 4) × (t.2.place ≡ 5) × (t.3.place ≡ 6)
            × (t.4.place ≡ 7) × (t.5.place ≡ 8)) }
    {
        match six_words(self.words) {
            Some((a, b, c, d, e, f)) => Ok((
                at(0, a),
                at(1, b),
                at(2, c),
                at(3, d),
                at(4, e),
                at(5, f),
            )),
            None => Err(self.word_count_fault(6, 6)),
        }
    }

    /// The eight words behind the keyword, or that there are more or fewer.
    pub fn eight(self) -> Result<Eight<'a>, Cause>
        ensures words { MatchResult result
            (λ t. grammar.eight (words_left (option_copied self.entry.words))
            ≡ Some (
              t.0.text.now,
              t.1.text.now,
              t.2.text.now,
              t.3.text.now,
              t.4.text.now,
              t.5.text.now,
              t.6.text.now,
              t.7.text.now,
            ))
            (λ cause. (grammar.eight (words_left (option_copied self.entry.words)) ≡ None)
            × Blames cause) }
        ensures places { IfOk result
            (λ t. (t.0.place ≡ 3) × (t.1.place ≡ 4) × (t.2.place ≡ 5) × (t.3.place ≡ 6)
            × (t.4.place ≡ 7) × (t.5.place ≡ 8) × (t.6.place ≡ 9) × (t.7.place ≡ 10)) }
    {
        match eight_words(self.words) {
            Some((a, b, c, d, e, f, g, h)) => Ok((
                at(0, a),
                at(1, b),
                at(2, c),
                at(3, d),
                at(4, e),
                at(5, f),
                at(6, g),
                at(7, h),
            )),
            None => Err(self.word_count_fault(8, 8)),
        }
    }

    /// The number behind the keyword, or none where it stands alone.
    pub fn optional_number(self) -> Result<Option<u32>, Cause>
        ensures { Reads result (grammar.number_or_none
            (words_left (option_copied self.entry.words))) }
    {
        if no_words(self.words) {
            return Ok(None);
        }
        match one_word(self.words) {
            Some(word) => Ok(Some(at(0, word).number()?)),
            None => Err(self.word_count_fault(0, 1)),
        }
    }
}
