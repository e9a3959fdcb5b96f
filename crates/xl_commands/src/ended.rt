//! How the program ends.
use xl_outcome::Stopped;

/// The status where all went well.
pub const DONE: u8 = 0;

/// The status where the words are no command.
pub const USAGE: u8 = 2;

/// The status that a command came to, and the shelf that was handed in.
#[derive(Drop)]
pub struct Ended<D> {
    /// What the program is to end with: 0 where all went well, else why it stopped.
    pub status: u8,
    /// Why a command stopped, for people to be told. There is none where all went well, or where the words are no
    /// command; and at status 8 the cause may be a line for which memory ran out. Clauses of `run` speak of it, and none
    /// of `serve`.
    pub cause: Option<Stopped>,
    /// The shelf that was handed in, with what the command saved.
    pub shelf: D,
}
