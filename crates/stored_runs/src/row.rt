//! A row as it stands in a file of `data/`: its name, and its parts, each a key, a value and the lines behind them.

use std::alloc::Global;
use std::io;

/// What stands ahead of a part.
const PART_MARK: &str = "\n-- ";

/// The keys that a part may have.
const KEYS: [&str; 15] = [
    "run",
    "file",
    "first",
    "word",
    "failing-read",
    "failing-write",
    "failing-call",
    "failing-from",
    "step",
    "hold",
    "source",
    "newlines",
    "audited",
    "status",
    "leaves",
];

/// The keys of the parts that name a text.
const TEXT_KEYS: [&str; 3] = ["text", "digest", "ordered"];

/// A line `-- KEY VALUE`, and the lines behind it.
#[derive(Clone, Copy)]
pub struct Part<'a> {
    pub key: &'a str,
    pub value: &'a str,
    /// It ends ahead of the line end before the next part or row.
    pub body: &'a str,
}

impl<'a> Part<'a> {
    /// Whether it names a text that is wanted.
    pub fn is_text(&self) -> bool {
        TEXT_KEYS.contains(&self.key)
    }

    fn is_known(&self) -> bool {
        self.is_text() || KEYS.contains(&self.key)
    }
}

/// The parts of a row.
#[derive(Drop)]
pub struct Row<'a> {
    pub parts: Vec<Part<'a>>,
}

/// The error of a row that says what no row says.
pub fn bad_row() -> io::Error {
    io::Error::from(io::ErrorKind::InvalidData)
}

pub fn number_in(text: &str) -> io::Result<u32> {
    match text.parse::<u32>() {
        Ok(number) => Ok(number),
        Err(_) => Err(bad_row()),
    }
}

/// The words of a text that has one space between two.
pub fn words_in(alloc: Global, text: &str) -> io::Result<Vec<&str>> {
    let mut words = Vec::new(alloc);
    if !text.is_empty() {
        for word in text.split(' ') {
            words.push(word)?;
        }
    }
    Ok(words)
}

fn part_in(text: &str) -> Part<'_> {
    let (head, body) = text.split_once('\n').unwrap_or((text, ""));
    let (key, value) = head.split_once(' ').unwrap_or((head, ""));
    Part { key, value, body }
}

/// The row that a text says, which begins with its name. An error where a part is none.
pub fn row_in(alloc: Global, text: &str) -> io::Result<Row<'_>> {
    let mut parts = Vec::new(alloc);
    for text in text.split(PART_MARK).skip(1) {
        let part = part_in(text);
        if !part.is_known() {
            return Err(bad_row());
        }
        parts.push(part)?;
    }
    Ok(Row { parts })
}

impl<'a> Row<'a> {
    /// The value of the part with this key, of which there is one at most.
    pub fn value(&self, key: &str) -> io::Result<Option<&'a str>> {
        let mut value = None;
        for part in &self.parts {
            if part.key == key {
                if value.is_some() {
                    return Err(bad_row());
                }
                value = Some(part.value);
            }
        }
        Ok(value)
    }

    /// The value of the part with this key, of which there is one.
    pub fn needed(&self, key: &str) -> io::Result<&'a str> {
        match self.value(key)? {
            Some(value) => Ok(value),
            None => Err(bad_row()),
        }
    }

    /// The number of the part with this key, if there is one.
    pub fn number(&self, key: &str) -> io::Result<Option<u32>> {
        match self.value(key)? {
            Some(value) => Ok(Some(number_in(value)?)),
            None => Ok(None),
        }
    }

    /// The same as a list.
    pub fn numbers(&self, alloc: Global, key: &str) -> io::Result<Vec<u32>> {
        let mut numbers = Vec::new(alloc);
        if let Some(number) = self.number(key)? {
            numbers.push(number)?;
        }
        Ok(numbers)
    }

    /// What its parts `source` and `newlines` put into the source, one after another.
    pub fn source(&self, alloc: Global) -> io::Result<Vec<u8>> {
        let mut bytes = Vec::new(alloc);
        for part in &self.parts {
            match part.key {
                "source" => bytes.extend_from_slice(part.body.as_bytes())?,
                "newlines" => add_newlines(&mut bytes, number_in(part.value)?)?,
                _ => {}
            }
        }
        Ok(bytes)
    }
}

fn add_newlines(bytes: &mut Vec<u8>, count: u32) -> io::Result<()> {
    bytes.resize(bytes.len() + count as usize, b'\n')?;
    Ok(())
}
