ghost use Rattle.std.specs.Prelude.{◌≡◌, ◌≤◌, length};
ghost use Rattle.xl_ports.specs.Disk.{read_at};

use crate::asked::{asked_of, file_of};
use std::alloc::Global;
use xl_outcome::Stopped;
use xl_ports::Shelf;

/// How many bytes of a refused file its sentence looks at, from the offset of the refusal on.
pub const FOUND_LEN: usize = 8;

/// Reads what `message` is to find where the file is refused, and answers how many bytes it is: 0 where the file is not
/// refused, or cannot be read once more. The name of the file is selected.
pub fn load_found<'a, D: Shelf>(
    alloc: Global,
    shelf: &mut D,
    words: &'a [&'a str],
    cause: Option<Stopped>,
    found: &mut [u8],
) -> usize
    ensures within { result ≤ length found.new }
    ensures contents { read_at (D.shelf_state shelf.new).disk ≡ read_at
        (D.shelf_state shelf.old).disk }
    ensures saving { (D.shelf_state shelf.new).saving ≡ (D.shelf_state shelf.old).saving }
{
    let Some(Stopped::Refused(refused)) = cause else {
        return 0;
    };
    let Ok(Some(asked)) = asked_of(alloc, words) else {
        return 0;
    };
    if shelf.select(file_of(asked)).is_err() {
        return 0;
    }
    shelf.load(refused.at, found).unwrap_or(0)
}
