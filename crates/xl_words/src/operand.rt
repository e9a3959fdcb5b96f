ghost use Rattle.std.specs.Prelude.{◌≡◌, ◌<◌, ◌^◌, false, is_some, IfOk};
ghost use Rattle.spec_script.specs.Words as grammar;
ghost use Rattle.xl_words.specs.Causes.{Blames, has, colour_bytes};
ghost use Rattle.xl_words.specs.Reads.{Reads, ReadsIf};

use crate::cause::{Cause, CauseOrMemory};
use crate::digits::{are_colours, hex};
use crate::kind::WordKind;
use crate::numbers::{byte, coordinate, flag, layer_type, number, side, signed_number};
use crate::word_front::WordFront;
use std::alloc::Global;
use xl_props::Bytes;

/// A word behind a keyword, and its place in the line, from 1.
#[derive(Clone, Copy)]
pub struct Operand<'a> {
    pub place: u8,
    pub text: &'a [u8],
}

impl<'a> Operand<'a> {
    // What is wrong with the word, which is not of its kind.
    fn fault(self, kind: WordKind) -> Cause
        requires { has kind self.text.now ≡ false }
        ensures { Blames result }
    {
        let place = self.place;
        let word = WordFront::of(self.text);
        if kind.has_leading_zero(self.text) {
            Cause::LeadingZero { place, word }
        } else {
            Cause::BadWord { place, word, kind }
        }
    }

    // What the word was read as, or what is wrong with it where that is nothing.
    fn read<T>(self, value: Option<T>, kind: WordKind) -> Result<T, Cause>
        requires { is_some value ≡ has kind self.text.now }
        ensures { Reads result value }
    {
        match value {
            Some(value) => Ok(value),
            None => Err(self.fault(kind)),
        }
    }

    /// A number of 32 bits.
    pub fn number(self) -> Result<u32, Cause>
        ensures { Reads result (grammar.number self.entry.text.now) }
    {
        self.read(number(self.text), WordKind::Number)
    }

    /// A number of 0 to 255.
    pub fn byte(self) -> Result<u8, Cause>
        ensures { Reads result (grammar.number_below 256 self.entry.text.now) }
    {
        self.read(byte(self.text), WordKind::Byte)
    }

    /// A flag: 0 or 1.
    pub fn flag(self) -> Result<bool, Cause>
        ensures { Reads result (grammar.flag self.entry.text.now) }
    {
        self.read(flag(self.text), WordKind::Flag)
    }

    /// A place or a side of a rectangle.
    pub fn coordinate(self) -> Result<u32, Cause>
        ensures value { Reads result (grammar.coordinate self.entry.text.now) }
        ensures below { IfOk result (λ n. n < 2 ^ 20) }
    {
        self.read(coordinate(self.text), WordKind::Coordinate)
    }

    /// A side of a new layer.
    pub fn side(self) -> Result<u32, Cause>
        ensures { Reads result (grammar.side self.entry.text.now) }
    {
        self.read(side(self.text), WordKind::Side)
    }

    /// The type of a layer: a number of 0 to 5.
    pub fn layer_type(self) -> Result<u32, Cause>
        ensures { Reads result (grammar.number_below 6 self.entry.text.now) }
    {
        self.read(layer_type(self.text), WordKind::LayerType)
    }

    /// A number of 32 bits with its sign.
    pub fn signed_number(self) -> Result<i32, Cause>
        ensures { Reads result (grammar.signed_number self.entry.text.now) }
    {
        self.read(signed_number(self.text), WordKind::Offset)
    }

    /// Bytes in hexadecimal digits, or a minus for none.
    pub fn hex(self, alloc: Global) -> Result<Bytes, CauseOrMemory>
        ensures { ReadsIf result (grammar.hex self.entry.text.now) }
    {
        let bytes = hex(alloc, self.text)?;
        Ok(self.read(bytes, WordKind::Hex)?)
    }

    /// 1 to 256 colours of three bytes, in hexadecimal digits.
    pub fn colours(self, alloc: Global) -> Result<Bytes, CauseOrMemory>
        ensures { ReadsIf result (colour_bytes self.entry.text.now) }
    {
        let Some(bytes) = hex(alloc, self.text)? else {
            return Err(CauseOrMemory::Refused(self.fault(WordKind::Colours)));
        };
        if are_colours(&bytes) {
            Ok(bytes)
        } else {
            Err(CauseOrMemory::Refused(self.fault(WordKind::Colours)))
        }
    }
}
