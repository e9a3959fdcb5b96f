/// What a word behind a keyword has to be.
#[derive(Clone, Copy, Debug, PartialEq, Eq)]
pub enum WordKind {
    /// A number of 32 bits.
    Number,
    /// A place or a side of a rectangle, below 2^20.
    Coordinate,
    /// A side of a new layer.
    Side,
    /// A number of 0 to 255.
    Byte,
    /// The type of a new layer, 0 to 5.
    LayerType,
    /// 0 or 1.
    Flag,
    /// A number of 32 bits with its sign.
    Offset,
    /// Bytes in hexadecimal digits.
    Hex,
    /// 1 to 256 colours in hexadecimal digits.
    Colours,
}

impl WordKind {
    fn is_number(self) -> bool {
        match self {
            WordKind::Number
            | WordKind::Coordinate
            | WordKind::Side
            | WordKind::Byte
            | WordKind::LayerType
            | WordKind::Flag
            | WordKind::Offset => true,
            WordKind::Hex | WordKind::Colours => false,
        }
    }

    /// Whether the word would be a number, were it not for a zero in front.
    pub fn has_leading_zero(self, word: &[u8]) -> bool {
        self.is_number() && word.iter().all(|b| b.is_ascii_digit()) && matches!(word, [b'0', _, ..])
    }
}
