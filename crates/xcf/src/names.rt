//! Names as text.
ghost use Rattle.std.specs.Prelude.{◌≡◌, IfSome, IfNone};
ghost use Rattle.std.specs.Str.{IsUtf8};
ghost use Rattle.std.specs.List.{starts_with};
ghost use Rattle.std.specs.Prelude.{nat_eq};

use std::marker::Model;
use std::{fmt, str};
use xl_doc::Bytes;

/// The name of a node or of a channel: bytes without a zero byte, which are mostly UTF-8.
///
/// It is printed as text in quotes, or in hexadecimal digits where it is no UTF-8.
#[derive(Drop)]
pub struct Name<'a> {
    bytes: &'a [u8],
}

impl<'a> Model for Name<'a> {
    ghost use Rattle.std.specs.Prelude.{List, ℕ};

    ghost Value = { List ℕ };

    ghost view = { λ n. n.bytes.now };
}

impl<'a> Name<'a> {
    /// A name, to be read as text.
    pub fn of(name: &'a Bytes) -> Name<'a>
        ensures { result ≡ name.now }
    {
        Name {
            bytes: name.as_slice(),
        }
    }

    /// Its bytes.
    pub fn as_bytes(&self) -> &'a [u8]
        ensures { result.now ≡ self.now }
    {
        self.bytes
    }

    /// Its text, where it is UTF-8.
    pub fn as_str(&self) -> Option<&'a str>
        ensures text { IfSome result (λ text. text.now ≡ self.now) }
        ensures none { IfNone result (¬ (IsUtf8 self.now)) }
    {
        match str::from_utf8(self.bytes) {
            Ok(text) => Some(text),
            Err(_) => None,
        }
    }

    /// Whether it begins with a text.
    pub fn starts_with(&self, text: &str) -> bool
        ensures { result ≡ starts_with nat_eq self.now text.now }
    {
        self.bytes.starts_with(text.as_bytes())
    }
}

impl fmt::Display for Name<'_> {
    fn fmt<W: fmt::Write>(&self, f: &mut fmt::Formatter<W>) -> fmt::Result {
        match self.as_str() {
            Some(text) => write!(f, "{text:?}"),
            None => write_digits(self.bytes, f),
        }
    }
}

fn write_digits<W: fmt::Write>(bytes: &[u8], f: &mut fmt::Formatter<W>) -> fmt::Result {
    for byte in bytes {
        write!(f, "{byte:02x}")?;
    }
    Ok(())
}
