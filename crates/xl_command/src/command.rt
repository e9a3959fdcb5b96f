//! The commands, with what they name.

/// What the arguments ask for, with the name of a file.
#[derive(Clone, Copy, PartialEq, Eq)]
pub enum Command<'a> {
    /// Edits a file with so many workers.
    Edit(&'a str, u32),
    /// Writes the picture of a file.
    Render(&'a str),
    /// Tells of a file in a line, with all that is listed of it where that is asked for.
    Info(&'a str, bool),
    /// Makes a file from a seed.
    Make(&'a str, u32),
    /// Saves a file as small as it can be, and tells how it is spelled where that is asked for.
    Pack(&'a str, bool),
    /// Puts one layer in the place of all nodes of a file.
    Flatten(&'a str),
    /// Shows windows of a file, of so many columns and rows of tiles.
    View(&'a str, u32, u32),
    /// Judges a printed run of a script on a file.
    Audit(&'a str),
}
